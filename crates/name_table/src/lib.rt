// The name table of a flat file, made ready for pruning: the place of each name and of each net by name number, and the names sorted by
// their bytes, so that the name of a node is looked up in at most 12 comparisons.
#![tactic(auto)]

ghost use Rattle.std.specs.Prelude.{◌≡◌, get_or, set};
ghost use Rattle.name_table.specs.Table.{name_places, net_places, sort_from, sorted_part, number_part, find};

use repeats::Item;

// Past the end a read is 0 and a write does nothing.
pub fn get(l: &[usize], i: usize) -> usize
    ensures { result ≡ get_or l.now i 0 }
{
    if i < l.len() { l[i] } else { 0 }
}

fn put(l: &mut [usize], i: usize, v: usize)
    ensures { l.new ≡ set l.old i v }
{
    if i < l.len() {
        l[i] = v;
    }
}

// The places of n names from `from` on, by number.
pub fn name_places(s: &[u8], from: usize, n: u16, names: &mut [usize])
    ensures { names.new ≡ name_places s.now names.old from 0 n }
{
    let mut at = from;
    for i in 0..n as usize {
        put(names, i, at);
        at = ends::name_end(s, at);
    }
}

// The places of n nets from `from` on, each by the number of its name; 0 stays where there is none.
pub fn net_places(s: &[u8], from: usize, n: u16, nets: &mut [usize])
    ensures { nets.new ≡ net_places s.now nets.old from n }
{
    let mut at = from;
    for _ in 0..n {
        let i = fields::be16(s, at) as usize;
        put(nets, i, at);
        at = ends::flat_net_end(s, at);
    }
}

// The first n names sorted by their bytes, as places and as numbers.
pub fn sort_names(s: &[u8], names: &[usize], n: u16, sorted: &mut [usize], numbers: &mut [usize])
    ensures { (sorted.new ≡ sorted_part s.now names.now sorted.old numbers.old n) × (numbers.new ≡ number_part s.now names.now sorted.old numbers.old n) }
{
    for m in 0..n as usize {
        let at = get(names, m);
        let z = repeats::item_size(s, at, Item::Name);
        let p = repeats::search(s, sorted, m, at, z);
        repeats::insert(sorted, m, p, at);
        repeats::insert(numbers, m, p, m);
    }
}

// The number of the name that stands at `at`, of m names sorted; 1,024 where it is none of them.
pub fn find(s: &[u8], sorted: &[usize], numbers: &[usize], m: usize, at: usize) -> usize
    ensures { result ≡ find s.now sorted.now numbers.now m at }
{
    let z = repeats::item_size(s, at, Item::Name);
    let p = repeats::search(s, sorted, m, at, z);
    if repeats::known(s, sorted, m, p, at, z) {
        return get(numbers, p);
    }
    1024
}
