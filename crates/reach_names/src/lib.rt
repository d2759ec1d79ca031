// What is reached from the entries: `visit` of prune.rs, over the names in the order in which they are first met. A name is marked when it is
// met and put in order; each in its turn leads on to its children and to what the nodes of its net lead to.
#![tactic(auto)]

ghost use Rattle.std.specs.Prelude.{◌≡◌, replicate};
ghost use Rattle.stored.specs.Stored.{list_at};
ghost use Rattle.name_table.specs.Table.{find};
ghost use Rattle.reach_names.specs.Reach.{Met, mark, mark_all, from_node_words, from_nodes, onward, close, from_entries, with_names, reached};

// A name, if it is not marked yet.
fn mark(marks: &mut [bool], order: &mut [usize], count: usize, i: usize) -> usize
    ensures { (result ≡ (mark (record { marks = marks.old; order = order.old; count = count }) i).count) × (marks.new ≡ (mark (record { marks = marks.old; order = order.old; count = count }) i).marks) × (order.new ≡ (mark (record { marks = marks.old; order = order.old; count = count }) i).order) }
{
    if marks.len() <= i {
        return count;
    }
    if order.len() <= count {
        return count;
    }
    if marks[i] {
        return count;
    }
    marks[i] = true;
    order[count] = i;
    count + 1
}

// The entries.
fn mark_entries(entries: &[u32], marks: &mut [bool], order: &mut [usize], count: usize) -> usize
    ensures { (result ≡ (mark_all (record { marks = marks.old; order = order.old; count = count }) entries.now).count) × (marks.new ≡ (mark_all (record { marks = marks.old; order = order.old; count = count }) entries.now).marks) × (order.new ≡ (mark_all (record { marks = marks.old; order = order.old; count = count }) entries.now).order) }
{
    let mut c = count;
    for e in entries {
        c = mark(marks, order, c, *e as usize);
    }
    c
}

// The children of the name whose list of children stands at `at`.
fn mark_list(s: &[u8], at: usize, marks: &mut [bool], order: &mut [usize], count: usize) -> usize
    ensures { (result ≡ (mark_all (record { marks = marks.old; order = order.old; count = count }) (list_at s.now at)).count) × (marks.new ≡ (mark_all (record { marks = marks.old; order = order.old; count = count }) (list_at s.now at)).marks) × (order.new ≡ (mark_all (record { marks = marks.old; order = order.old; count = count }) (list_at s.now at)).order) }
{
    let mut c = count;
    let k = fields::byte(s, at) as usize;
    for j in 0..k {
        let i = readers::be16_on(s, at, 1 + 2 * j);
        c = mark(marks, order, c, i as usize);
    }
    c
}

// The name of the node at `at` if it is in the table, else its children.
fn mark_node(
    s: &[u8],
    sorted: &[usize],
    numbers: &[usize],
    m: usize,
    at: usize,
    marks: &mut [bool],
    order: &mut [usize],
    count: usize,
) -> usize
    ensures { (result ≡ (mark_all (record { marks = marks.old; order = order.old; count = count }) (from_node_words (find s.now sorted.now numbers.now m) s.now at)).count) × (marks.new ≡ (mark_all (record { marks = marks.old; order = order.old; count = count }) (from_node_words (find s.now sorted.now numbers.now m) s.now at)).marks) × (order.new ≡ (mark_all (record { marks = marks.old; order = order.old; count = count }) (from_node_words (find s.now sorted.now numbers.now m) s.now at)).order) }
{
    let i = name_table::find(s, sorted, numbers, m, at);
    if i < 1024 {
        return mark(marks, order, count, i);
    }
    mark_list(s, ends::on(s, at, 10), marks, order, count)
}

// What n nodes from `from` on lead to.
fn mark_nodes(
    s: &[u8],
    sorted: &[usize],
    numbers: &[usize],
    m: usize,
    from: usize,
    n: u16,
    marks: &mut [bool],
    order: &mut [usize],
    count: usize,
) -> usize
    ensures { (result ≡ (mark_all (record { marks = marks.old; order = order.old; count = count }) (from_nodes (find s.now sorted.now numbers.now m) s.now from n)).count) × (marks.new ≡ (mark_all (record { marks = marks.old; order = order.old; count = count }) (from_nodes (find s.now sorted.now numbers.now m) s.now from n)).marks) × (order.new ≡ (mark_all (record { marks = marks.old; order = order.old; count = count }) (from_nodes (find s.now sorted.now numbers.now m) s.now from n)).order) }
{
    let mut c = count;
    let mut at = from;
    for _ in 0..n {
        c = mark_node(s, sorted, numbers, m, at, marks, order, c);
        at = ends::node_end(s, at);
    }
    c
}

// The name with the number i: its children, then its net.
fn visit(
    s: &[u8],
    names: &[usize],
    nets: &[usize],
    sorted: &[usize],
    numbers: &[usize],
    m: usize,
    i: usize,
    marks: &mut [bool],
    order: &mut [usize],
    count: usize,
) -> usize
    ensures { (result ≡ (mark_all (record { marks = marks.old; order = order.old; count = count }) (onward (find s.now sorted.now numbers.now m) s.now names.now nets.now i)).count) × (marks.new ≡ (mark_all (record { marks = marks.old; order = order.old; count = count }) (onward (find s.now sorted.now numbers.now m) s.now names.now nets.now i)).marks) × (order.new ≡ (mark_all (record { marks = marks.old; order = order.old; count = count }) (onward (find s.now sorted.now numbers.now m) s.now names.now nets.now i)).order) }
{
    let x = name_table::get(names, i);
    let c = mark_list(s, ends::on(s, x, 10), marks, order, count);
    let a = name_table::get(nets, i);
    if a == 0 {
        return c;
    }
    let q = ends::node_count_at(s, a);
    mark_nodes(
        s,
        sorted,
        numbers,
        m,
        ends::on(s, q, 2),
        fields::be16(s, q),
        marks,
        order,
        c,
    )
}

// Each in its turn, until none is left.
fn close(
    s: &[u8],
    names: &[usize],
    nets: &[usize],
    sorted: &[usize],
    numbers: &[usize],
    m: usize,
    marks: &mut [bool],
    order: &mut [usize],
    count: usize,
)
    ensures { (marks.new ≡ (close (onward (find s.now sorted.now numbers.now m) s.now names.now nets.now) (record { marks = marks.old; order = order.old; count = count }) 0 1024).marks) × (order.new ≡ (close (onward (find s.now sorted.now numbers.now m) s.now names.now nets.now) (record { marks = marks.old; order = order.old; count = count }) 0 1024).order) }
{
    let mut c = count;
    for h in 0..1024 {
        if c <= h {
            return;
        }
        let i = name_table::get(order, h);
        c = visit(s, names, nets, sorted, numbers, m, i, marks, order, c);
    }
}

// From the entries on, with the tables made ready.
fn from_entries(
    s: &[u8],
    names: &[usize],
    nets: &[usize],
    sorted: &[usize],
    numbers: &[usize],
    m: usize,
    entries: &[u32],
    marks: &mut [bool],
)
    ensures { marks.new ≡ from_entries (onward (find s.now sorted.now numbers.now m) s.now names.now nets.now) entries.now marks.old }
{
    let mut order = [0usize; 1024];
    let c = mark_entries(entries, marks, &mut order, 0);
    close(s, names, nets, sorted, numbers, m, marks, &mut order, c)
}

// The names in their tables, then what is reached.
fn with_names(s: &[u8], nets: &[usize], entries: &[u32], marks: &mut [bool])
    ensures { marks.new ≡ with_names s.now nets.now entries.now marks.old }
{
    let mut names = [0usize; 1024];
    let mut sorted = [0usize; 1024];
    let mut numbers = [0usize; 1024];
    let q = readers::name_count_at(s);
    let n = fields::be16(s, q);
    name_table::name_places(s, ends::on(s, q, 2), n, &mut names);
    name_table::sort_names(s, &names, n, &mut sorted, &mut numbers);
    from_entries(
        s, &names, nets, &sorted, &numbers, n as usize, entries, marks,
    )
}

// Marks what is reached from the entries.
pub fn reached(s: &[u8], entries: &[u32], marks: &mut [bool])
    ensures { marks.new ≡ reached s.now entries.now marks.old }
{
    let mut nets = [0usize; 1024];
    let q = readers::net_count_at(s);
    let n = fields::be16(s, q);
    name_table::net_places(s, ends::on(s, q, 2), n, &mut nets);
    with_names(s, &nets, entries, marks)
}
