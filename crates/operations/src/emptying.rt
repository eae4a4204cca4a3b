// Emptying of lent tables: no nodes, all slots free, depth and cycle 0.
ghost use Rattle.std.specs.Prelude.{◌≡◌};
ghost use Rattle.operating.specs.Emptying.{freed, emptied, emptying};

use counts::room::{carry, slot_room};
use primitive::rows::{FREE, LINK, NEXT_DEP};
use primitive::words;

// The first k slots go to the front of the free list, the last of them first.
#[tactic(auto, unfolding(operating::specs::Emptying::freed))]
fn free_all(links: &mut [u64], k: u64)
    ensures { links.new ≡ freed links.old k }
{
    for s in (0..k).rev() {
        let head = words::at(links, FREE);
        words::store(links, LINK, s, NEXT_DEP, head);
        words::put(links, FREE, s + 1);
    }
}

// 1, and nothing is touched, where the lengths do not carry capacities; else 0. A number: C reads it as it is.
#[tactic(auto, using(operating::proofs::EmptyLaws::filled, operating::proofs::EmptyLaws::empty_done, operating::proofs::EmptyLaws::empty_not), unfolding(operating::specs::Emptying::emptying))]
pub fn empty(nodes: &mut [u64], links: &mut [u64], values: &mut [i64], cells: &mut [i64]) -> u64
    ensures { emptied result nodes.new links.new values.new cells.new ≡ emptying nodes.old links.old values.old cells.old }
{
    if carry(nodes, links, values, cells) {
        let slots = slot_room(links);
        nodes.fill(0);
        links.fill(0);
        free_all(links, slots);
        values.fill(0);
        cells.fill(0);
        0
    } else {
        1
    }
}
