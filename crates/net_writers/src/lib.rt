// The parts of a net, of a tree and the head of a file, written into a lent slice. Document 01, "The net file".
// A writer measures all that it is to write first, so it writes all of it or nothing.
#![tactic(auto)]

ghost use Rattle.net_file.specs.Values.{wire};
ghost use Rattle.net_file.specs.Write.{write_node, write_pair, write_head, write_tree};
ghost use Rattle.put.specs.Written.{Written, WrittenIf, Short};
ghost use Rattle.writers.specs.Parts.{name};
ghost use Rattle.net_writers.specs.Parts.{node, tree_node_head, file_head};

pub fn put_pair(out: &mut [u8], at: usize, a: u16, b: u16) -> Option<usize>
    ensures { Written (write_pair (a, b)) at out.old out.new result }
{
    if put::space(out, at) < 4 {
        return None;
    }
    put::put16(out, at, a);
    put::put16(out, at + 2, b)
}

// A node of a flat net: its name, its principal wire, its auxiliary wires.
pub fn put_node(
    out: &mut [u8],
    at: usize,
    path: u16,
    payload: u64,
    children: &[u16],
    pri: u16,
    aux: &[u16],
) -> Option<usize>
    ensures { WrittenIf (Short children.now × Short aux.now) (write_node (node (name path payload children.now) pri aux.now)) at out.old out.new result }
{
    if 255 < aux.len() {
        return None;
    }
    if 255 < children.len() {
        return None;
    }
    let named = 11 + 2 * children.len();
    if put::space(out, at) < named + 3 + 2 * aux.len() {
        return None;
    }
    writers::put_name(out, at, path, payload, children);
    put::put16(out, at + named, pri);
    put::put_counted(out, at + named + 2, aux)
}

// What both kinds of net begin with: name number, included, wire counter.
pub fn put_net_head(
    out: &mut [u8],
    at: usize,
    name: u16,
    included: bool,
    wires: u32,
) -> Option<usize>
    ensures { Written (write_head name included wires) at out.old out.new result }
{
    if put::space(out, at) < 7 {
        return None;
    }
    put::put16(out, at, name);
    put::put_bit(out, at + 2, included);
    put::put32(out, at + 3, wires)
}

pub fn put_tree_wire(out: &mut [u8], at: usize, w: u16) -> Option<usize>
    ensures { Written (write_tree (wire w)) at out.old out.new result }
{
    if put::space(out, at) < 3 {
        return None;
    }
    put::put8(out, at, 0);
    put::put16(out, at + 1, w)
}

// What a node of a tree is written as, but for its children, which follow: k of them.
pub fn put_tree_node_head(
    out: &mut [u8],
    at: usize,
    path: u16,
    payload: u64,
    children: &[u16],
    k: u8,
) -> Option<usize>
    ensures { WrittenIf (Short children.now) (tree_node_head (name path payload children.now) k) at out.old out.new result }
{
    if 255 < children.len() {
        return None;
    }
    let named = 12 + 2 * children.len();
    if put::space(out, at) < named + 1 {
        return None;
    }
    put::put8(out, at, 1);
    writers::put_name(out, at + 1, path, payload, children);
    put::put8(out, at + named, k)
}

// What a file begins with: the length of all that follows the length, the version, the limit.
pub fn put_file_head(out: &mut [u8], length: u32, version: u8, limit: u32) -> Option<usize>
    ensures { Written (file_head length version limit) 0 out.old out.new result }
{
    if out.len() < 9 {
        return None;
    }
    put::put32(out, 0, length);
    put::put8(out, 4, version);
    put::put32(out, 5, limit)
}
