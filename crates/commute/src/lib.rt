// The rule commute of common.rs.
#![tactic(auto)]

ghost use Rattle.std.specs.Prelude.{◌+◌, ◌≤◌, ◌<◌, ◌≡◌};
ghost use Rattle.commute.specs.Commute.{row, blank, link_column, copy_across, copy_both, aux_count, side_of, commute};

use edits::Placed;
use kinds::{NetId, NodeId};
use layout::Port;
use tried::Tried;

// The fifteen places for aux ports from p on.
fn row(p: Port) -> [u32; 15]
    ensures { result ≡ row p.0 }
{
    let mut r = [0u32; 15];
    let mut q = p.0;
    for place in &mut r {
        *place = q;
        q = layout::next(q);
    }
    r
}

// The k aux ports from p on, of a copy of a, against column j of the copies of b.
fn link_column(ws: &mut [u32], grid: &[[u32; 15]; 15], p: Port, j: usize, k: usize)
    requires { (j < 15) × (k ≤ 15) }
    ensures { ws.new ≡ link_column ws.old grid.now p.0 j 0 k }
{
    let mut x = p;
    for i in 0..k {
        graph::link(ws, x, Port(grid[i][j]));
        x = layout::next_port(x);
    }
}

#[derive(Clone, Copy)]
pub struct Side {
    pub net: NetId,
    pub name: u32,
    // The first aux port, and how many there are.
    pub aux: Port,
    pub count: u32,
}

// A copy of a for each aux port of b.
fn copy_across(ws: &mut [u32], a: Side, b: Side, grid: &[[u32; 15]; 15]) -> Tried
    requires { (a.count ≤ 15) × (b.count ≤ 15) }
    ensures { (result ≡ (copy_across ws.old a grid.now b.aux.0 0 b.count).is) × (ws.new ≡ (copy_across ws.old a grid.now b.aux.0 0 b.count).ws) }
{
    let mut port = b.aux;
    for j in 0..b.count {
        let placed = edits::insert_node(ws, a.net, a.name, layout::next(a.count));
        match placed {
            Placed::At(n) => {
                let p = layout::principal(n);
                graph::link(ws, port, p);
                link_column(ws, grid, layout::next_port(p), j as usize, a.count as usize);
            }
            Placed::Refused(r) => return Tried::Refused(r),
        }
        port = layout::next_port(port);
    }
    Tried::Acted
}

// A copy of b for each aux port of a, and then the copies of a.
fn copy_both(ws: &mut [u32], a: Side, b: Side) -> Tried
    requires { (a.count ≤ 15) × (b.count ≤ 15) }
    ensures { (result ≡ (copy_both ws.old a b blank a.aux.0 0 a.count).is) × (ws.new ≡ (copy_both ws.old a b blank a.aux.0 0 a.count).ws) }
{
    let mut grid = [[0u32; 15]; 15];
    let mut port = a.aux;
    for i in 0..a.count {
        let placed = edits::insert_node(ws, b.net, b.name, layout::next(b.count));
        match placed {
            Placed::At(n) => {
                let p = layout::principal(n);
                graph::link(ws, port, p);
                grid[i as usize] = row(layout::next_port(p));
            }
            Placed::Refused(r) => return Tried::Refused(r),
        }
        port = layout::next_port(port);
    }
    copy_across(ws, a, b, &grid)
}

// At most fifteen.
fn aux_count(ws: &[u32], n: NodeId) -> u32
    ensures { result ≡ aux_count ws.now n.0 }
{
    let k = layout::less(tried::arity(ws, n));
    if 15 < k {
        return 15;
    }
    k
}

fn side_of(ws: &[u32], t: NetId, n: NodeId) -> Side
    ensures { result ≡ side_of ws.now t.0 n.0 }
{
    Side {
        net: t,
        name: tried::name(ws, n),
        aux: layout::next_port(layout::principal(n)),
        count: aux_count(ws, n),
    }
}

pub fn commute(ws: &mut [u32], t: NetId, a: NodeId, b: NodeId) -> Tried
    ensures { (result ≡ (commute ws.old t.0 a.0 b.0).is) × (ws.new ≡ (commute ws.old t.0 a.0 b.0).ws) }
{
    if tried::spent(ws) {
        return Tried::Refused(14);
    }
    let x = side_of(ws, t, a);
    let y = side_of(ws, t, b);
    erase::part(ws, a, b);
    copy_both(ws, x, y)
}
