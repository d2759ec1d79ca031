// Paths, names and rules of a net file, written into a lent slice. Document 01, "The net file".
// A writer measures all that it is to write first, so it writes all of it or nothing.
#![tactic(auto)]

ghost use Rattle.std.specs.Prelude.{◌+◌, ◌≤◌, ◌++◌, length};
ghost use Rattle.net_file.specs.Values.{graft, annihilate, erase, commute, eta};
ghost use Rattle.net_file.specs.Write.{be, write_path, write_name, write_list, write_rule};
ghost use Rattle.put.specs.Written.{Written, WrittenIf, Short, part};
ghost use Rattle.writers.specs.Parts.{name};

// The path that is the n bytes of s from a place on.
pub fn put_path(out: &mut [u8], at: usize, s: &[u8], from: usize, n: u8) -> Option<usize>
    ensures { WrittenIf (from + n ≤ length s.now) (write_path (part s.now from n)) at out.old out.new result }
{
    let k = n as usize;
    if s.len() < from {
        return None;
    }
    if s.len() - from < k {
        return None;
    }
    if put::space(out, at) < 1 + k {
        return None;
    }
    put::put8(out, at, n);
    put::put_bytes(out, at + 1, s, from, k)
}

pub fn put_name(
    out: &mut [u8],
    at: usize,
    path: u16,
    payload: u64,
    children: &[u16],
) -> Option<usize>
    ensures { WrittenIf (Short children.now) (write_name (name path payload children.now)) at out.old out.new result }
{
    if 255 < children.len() {
        return None;
    }
    if put::space(out, at) < 11 + 2 * children.len() {
        return None;
    }
    put::put16(out, at, path);
    put::put64(out, at + 2, payload);
    put::put_counted(out, at + 10, children)
}

pub fn put_graft(out: &mut [u8], at: usize, path: u16, lazy: bool) -> Option<usize>
    ensures { Written (write_rule (graft path lazy)) at out.old out.new result }
{
    if put::space(out, at) < 4 {
        return None;
    }
    put::put8(out, at, 1);
    put::put16(out, at + 1, path);
    put::put_bit(out, at + 3, lazy)
}

pub fn put_annihilate(out: &mut [u8], at: usize, ps: &[u16]) -> Option<usize>
    ensures { WrittenIf (Short ps.now) (write_rule (annihilate ps.now)) at out.old out.new result }
{
    if 255 < ps.len() {
        return None;
    }
    if put::space(out, at) < 2 + 2 * ps.len() {
        return None;
    }
    put::put8(out, at, 2);
    put::put_counted(out, at + 1, ps)
}

// A tag and two lists: what erase and commute are written as.
pub fn put_two_lists(out: &mut [u8], at: usize, tag: u8, xs: &[u16], ys: &[u16]) -> Option<usize>
    ensures { WrittenIf (Short xs.now × Short ys.now) (be 1 tag ++ write_list xs.now ++ write_list ys.now) at out.old out.new result }
{
    if 255 < xs.len() {
        return None;
    }
    if 255 < ys.len() {
        return None;
    }
    let middle = 2 + 2 * xs.len();
    if put::space(out, at) < middle + 1 + 2 * ys.len() {
        return None;
    }
    put::put8(out, at, tag);
    put::put_counted(out, at + 1, xs);
    put::put_counted(out, at + middle, ys)
}

pub fn put_erase(out: &mut [u8], at: usize, erasers: &[u16], nodes: &[u16]) -> Option<usize>
    ensures { WrittenIf (Short erasers.now × Short nodes.now) (write_rule (erase erasers.now nodes.now)) at out.old out.new result }
{
    put_two_lists(out, at, 3, erasers, nodes)
}

pub fn put_commute(out: &mut [u8], at: usize, xs: &[u16], ys: &[u16]) -> Option<usize>
    ensures { WrittenIf (Short xs.now × Short ys.now) (write_rule (commute xs.now ys.now)) at out.old out.new result }
{
    put_two_lists(out, at, 4, xs, ys)
}

pub fn put_eta(
    out: &mut [u8],
    at: usize,
    combinators: &[u16],
    values: &[u16],
    nils: &[u16],
) -> Option<usize>
    ensures { WrittenIf (Short combinators.now × Short values.now × Short nils.now) (write_rule (eta combinators.now values.now nils.now)) at out.old out.new result }
{
    if 255 < nils.len() {
        return None;
    }
    if 255 < values.len() {
        return None;
    }
    if 255 < combinators.len() {
        return None;
    }
    let middle = 3 + 2 * combinators.len() + 2 * values.len();
    if put::space(out, at) < middle + 1 + 2 * nils.len() {
        return None;
    }
    put_two_lists(out, at, 5, combinators, values);
    put::put_counted(out, at + middle, nils)
}
