// What is in use of an image's entries and slots: each entry is in a list or free, each slot holds a node of some list or is in
// the chain of the vacant ones.
#![tactic(auto, unfolding(crate::specs::Pools::then, crate::specs::Pools::all_hold, crate::specs::Pools::pools_hold, words::specs::Choose::pick))]

ghost use Rattle.std.specs.Prelude.{◌≡◌};
ghost use Rattle.image_pools.specs.Pools.{all_hold, pools_hold};

use image_chains::Pool;

fn all_hold(ws: &[u32], marks: &mut [u8]) -> bool
    ensures { (result ≡ (all_hold ws.now marks.old).is) × (marks.new ≡ (all_hold ws.now marks.old).ws) }
{
    image_lists::each_list_holds(ws, marks, words::get(ws, layout::NETS))
        && image_chains::pool_holds(ws, marks, Pool::Entries)
        && image_chains::pool_holds(ws, marks, Pool::Slots)
}

pub fn pools_hold(ws: &[u32]) -> bool
    ensures { result ≡ pools_hold ws.now }
{
    let mut marks = [0u8; 20481];
    all_hold(ws, &mut marks)
}
