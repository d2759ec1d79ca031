// A node's name is the place of a name in the held file; 0 is the name of the free nodes, which equals no other.
#![tactic(auto)]

ghost use Rattle.std.specs.Prelude.{◌+◌, ◌*◌, ◌<◌, ◌≤◌, ◌≡◌, length};
ghost use Rattle.fields.specs.Fields.{byte, be32};
ghost use Rattle.node_names.specs.Names.{path, child_count, first_child, same_children, same_head, same_bytes, same_name_words};

pub fn path(file: &[u8], name: u32) -> u32
    ensures { result ≡ path file.now name }
{
    fields::be16(file, name as usize) as u32
}

pub fn child_count(file: &[u8], name: u32) -> u32
    ensures { result ≡ child_count file.now name }
{
    fields::byte(file, name as usize + 10) as u32
}

pub fn first_child(file: &[u8], name: u32) -> u32
    ensures { result ≡ first_child file.now name }
{
    fields::be16(file, name as usize + 11) as u32
}

// The first k children of both names are the same.
fn same_children(file: &[u8], x: u32, y: u32, k: u32) -> bool
    ensures { result ≡ same_children file.now x y k }
{
    let mut a = x as usize + 11;
    let mut b = y as usize + 11;
    for _ in 0..k {
        if fields::be16(file, a) != fields::be16(file, b) {
            return false;
        }
        a += 2;
        b += 2;
    }
    true
}

// Four bytes that are there, and three.
fn four(s: &[u8], at: usize) -> u32
    requires { at + 4 ≤ length s.now }
    ensures { (result ≡ be32 s.now at) × (byte s.now (at + 3) < 256) }
{
    u32::from_be_bytes([s[at], s[at + 1], s[at + 2], s[at + 3]])
}

fn three(s: &[u8], at: usize) -> u32
    requires { at + 3 ≤ length s.now }
    ensures { result ≡ 65536 * byte s.now at + 256 * byte s.now (at + 1) + byte s.now (at + 2) }
{
    u32::from_be_bytes([0, s[at], s[at + 1], s[at + 2]])
}

// Path, payload and the number of children, which are there: eleven bytes as four, four and three.
fn same_eleven(file: &[u8], a: usize, b: usize) -> bool
    requires { (a + 11 ≤ length file.now) × (b + 11 ≤ length file.now) }
    ensures { result ≡ same_head file.now a b }
{
    let p = four(file, a);
    let q = four(file, b);
    let m = four(file, a + 4);
    let n = four(file, b + 4);
    if p != q {
        return false;
    }
    if m != n {
        return false;
    }
    three(file, a + 8) == three(file, b + 8)
}

// Where a name may reach past the end.
fn same_eights(file: &[u8], x: u32, y: u32) -> bool
    ensures { result ≡ same_head file.now x y }
{
    let a = x as usize;
    let b = y as usize;
    if fields::be64(file, a) == fields::be64(file, b) {
        return fields::be64(file, a + 3) == fields::be64(file, b + 3);
    }
    false
}

fn same_head(file: &[u8], x: u32, y: u32) -> bool
    ensures { result ≡ same_head file.now x y }
{
    let n = file.len();
    if n < 11 {
        return same_eights(file, x, y);
    }
    if n - 11 < x as usize {
        return same_eights(file, x, y);
    }
    if n - 11 < y as usize {
        return same_eights(file, x, y);
    }
    same_eleven(file, x as usize, y as usize)
}

fn same_bytes(file: &[u8], x: u32, y: u32) -> bool
    ensures { result ≡ same_bytes file.now x y }
{
    if same_head(file, x, y) {
        return same_children(file, x, y, child_count(file, x));
    }
    false
}

pub fn same_name(file: &[u8], x: u32, y: u32) -> bool
    ensures { result ≡ same_name_words file.now x y }
{
    if x == y {
        return true;
    }
    if x == 0 {
        return false;
    }
    if y == 0 {
        return false;
    }
    same_bytes(file, x, y)
}
