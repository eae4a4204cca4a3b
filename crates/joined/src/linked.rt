// Every slot is free, once on the free list, or live, once in each of its two lists. No memory: the walks share a budget of slots, and what they leave of it tells.
ghost use Rattle.std.specs.Prelude.{◌≡◌};
ghost use Rattle.resting.specs.Linked.{is_live_slot, fits, spare, walk, walks, frees, linked_in};

use counts::room;
use primitive::rows::{
    DEP, DEPS, DEPS_TAIL, FREE, LINK, LIVE, NEXT_DEP, NEXT_SUB, NODE, PREV_DEP, PREV_SUB, SUB,
    SUBS, SUBS_TAIL,
};
use primitive::slots::Slot;
use primitive::{slots, words};
use resting::linked::Side;

// A node's list of links to it, and of links from it.
const SUBSCRIBERS: Side = Side {
    own: DEP,
    prev: PREV_SUB,
    next: NEXT_SUB,
    head: SUBS,
    tail: SUBS_TAIL,
};

const DEPENDENCIES: Side = Side {
    own: SUB,
    prev: PREV_DEP,
    next: NEXT_DEP,
    head: DEPS,
    tail: DEPS_TAIL,
};

// links::free has this test for what changes slots; a test of tables stands on none of that.
#[tactic(auto, unfolding(resting::specs::Linked::is_live_slot))]
fn is_live(links: &[u64], x: u64) -> bool
    ensures { result ≡ is_live_slot links.now x }
{
    words::get(links, LINK, x, LIVE) != 0
}

// Whether slot x is live, names node n, and points back at the word p.
#[tactic(auto, unfolding(resting::specs::Linked::fits))]
fn fits(links: &[u64], side: Side, n: u64, p: u64, x: u64) -> bool
    ensures { result ≡ fits links.now side n p x }
{
    is_live(links, x)
        && words::get(links, LINK, x, side.own) == n
        && words::get(links, LINK, x, side.prev) == p
}

// Whether slot x is there and is not live.
#[tactic(auto, unfolding(resting::specs::Linked::spare))]
fn spare(links: &[u64], x: u64) -> bool
    ensures { result ≡ spare links.now x }
{
    x < room::slot_room(links) && !is_live(links, x)
}

// One list of node n, from the word w: what it leaves of the budget.
fn walk(links: &[u64], side: Side, n: u64, tail: u64, budget: u64, w: u64) -> Option<u64>
    ensures { result ≡ walk links.now side n tail budget 0 w }
{
    let mut left = budget;
    let mut p: u64 = 0;
    let mut at = w;
    while let Slot::At(x) = slots::open(at) {
        left = left.checked_sub(1)?;
        if !fits(links, side, n, p, x) {
            return None;
        }
        p = at;
        at = words::get(links, LINK, x, side.next);
    }
    (p == tail).then_some(left)
}

// The lists of the nodes below count, on one budget.
fn walks(nodes: &[u64], links: &[u64], side: Side, count: u64, budget: u64) -> Option<u64>
    ensures { result ≡ walks nodes.now links.now side count budget }
{
    let mut left = budget;
    for n in (0..count).rev() {
        let head = words::get(nodes, NODE, n, side.head);
        let tail = words::get(nodes, NODE, n, side.tail);
        left = walk(links, side, n, tail, left, head)?;
    }
    Some(left)
}

// The free list from the word w.
fn frees(links: &[u64], budget: u64, w: u64) -> Option<u64>
    ensures { result ≡ frees links.now budget w }
{
    let mut left = budget;
    let mut at = w;
    while let Slot::At(x) = slots::open(at) {
        left = left.checked_sub(1)?;
        if !spare(links, x) {
            return None;
        }
        at = words::get(links, LINK, x, NEXT_DEP);
    }
    Some(left)
}

// The subscriber lists leave some slots, the dependency lists as many, and these are just the free ones.
#[tactic(auto, unfolding(resting::specs::Linked::linked_in))]
pub fn linked(nodes: &[u64], links: &[u64]) -> bool
    ensures { result ≡ linked_in nodes.now links.now }
{
    let slots = room::slot_room(links);
    let count = room::counted(nodes);
    let Some(free) = walks(nodes, links, SUBSCRIBERS, count, slots) else {
        return false;
    };
    walks(nodes, links, DEPENDENCIES, count, slots) == Some(free)
        && frees(links, free, words::at(links, FREE)) == Some(0)
}
