// Document 01, "Commands": owner depth. Unowned 1; owned, owner's + 1.
ghost use Rattle.std.specs.Prelude.{◌≡◌, suc, min};
ghost use Rattle.counting.specs.Depths.{most_owner_depth, depth_under};

use primitive::rows::{LEVEL, NODE};
use primitive::slots::{self, Slot};
use primitive::words;

pub const MOST_OWNER_DEPTH: u64 = 16;

// The owner depth of a node whose owner word is w. Every depth over the greatest is the one above it.
#[tactic(auto, unfolding(counting::specs::Depths::depth_under))]
pub fn depth_under(nodes: &[u64], w: u64) -> u64
    ensures { result ≡ min (suc most_owner_depth) (depth_under nodes.now w) }
{
    let Slot::At(owner) = slots::open(w) else {
        return 1;
    };
    words::get(nodes, NODE, owner, LEVEL)
        .saturating_add(1)
        .min(MOST_OWNER_DEPTH + 1)
}
