// What stands beside a place in a list: a link's word, or the node's head or tail where there is no link.
ghost use Rattle.std.specs.Prelude.{◌≡◌};
ghost use Rattle.linking.specs.Table.{tab};
ghost use Rattle.linking.specs.Neighbours.{next_dep_of, set_beside};

use primitive::rows::{DEPS, LINK, NEXT_DEP, NODE};
use primitive::slots::Slot;
use primitive::{slots, words};

// What follows prev in sub's dependency list: the list's head where prev is nothing.
#[tactic(auto, unfolding(linking::specs::Neighbours::next_dep_of))]
pub fn next_dep(nodes: &[u64], links: &[u64], sub: u64, prev: u64) -> u64
    ensures { result ≡ next_dep_of (tab nodes.now links.now) sub prev }
{
    let Slot::At(p) = slots::open(prev) else {
        return words::get(nodes, NODE, sub, DEPS);
    };
    words::get(links, LINK, p, NEXT_DEP)
}

// Field f of the slot that beside names becomes w: field g of node n where it names nothing.
#[tactic(auto, unfolding(linking::specs::Neighbours::set_beside))]
pub fn set_beside(nodes: &mut [u64], links: &mut [u64], beside: u64, f: u64, n: u64, g: u64, w: u64)
    ensures { tab nodes.new links.new ≡ set_beside (tab nodes.old links.old) beside f n g w }
{
    let Slot::At(s) = slots::open(beside) else {
        words::store(nodes, NODE, n, g, w);
        return;
    };
    words::store(links, LINK, s, f, w);
}
