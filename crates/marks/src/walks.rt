// The walks over subscriber links that mark nodes. Each live link is met at most once on well-formed tables, so the budget is the rows of links.
ghost use Rattle.std.specs.Prelude.{◌≡◌};
ghost use Rattle.marking.specs.Valid.{valid_link};
ghost use Rattle.marking.specs.Visits.{visit, after, stored, reached};
ghost use Rattle.stack.specs.Stack.{pushed, pushed_len};
ghost use Rattle.marking.specs.Walks.{place, below, walked, blank, propagated};
ghost use Rattle.marking.specs.Shallow.{dirtied, shallow};

use crate::effects::notify;
use crate::nodes::{flags, set_flags};
use flags::Flags;
use primitive::rows::{DEPS_TAIL, LINK, NEXT_SUB, NODE, PREV_DEP, SUB, SUBS};
use primitive::slots::Slot;
use primitive::walk::Walk;
use primitive::{slots, words};
use stack::Stack;

// Flags that are tested together.
const CHANGED: Flags = Flags {
    bits: Flags::DIRTY.bits | Flags::PENDING.bits,
};

const BUSY: Flags = Flags {
    bits: Flags::RECURSED_CHECK.bits | Flags::RECURSED.bits,
};

const MARKED: Flags = Flags {
    bits: BUSY.bits | CHANGED.bits,
};

// Whether slot s is among the dependency links of sub, from its tail back.
pub fn is_valid_link(nodes: &[u64], links: &[u64], s: u64, sub: u64) -> bool
    ensures { result ≡ valid_link links.now nodes.now s sub }
{
    let tail = slots::open(words::get(nodes, NODE, sub, DEPS_TAIL));
    Walk::new(links, tail, PREV_DEP).any(|at| at == s)
}

// The five branches of propagate: marks the subscriber of slot s, and answers the flags that decide what follows.
fn visit(nodes: &mut [u64], links: &[u64], s: u64, sub: u64) -> Flags
    ensures bits_value { result.bits ≡ after (visit links.now nodes.old s sub) }
    ensures nodes_after { nodes.new ≡ stored nodes.old sub (visit links.now nodes.old s sub) }
{
    let flags = flags(nodes, sub);
    if flags.mask(MARKED).is_zero() {
        set_flags(nodes, sub, flags.join(Flags::PENDING));
        flags
    } else if flags.mask(BUSY).is_zero() {
        Flags::NONE
    } else if flags.mask(Flags::RECURSED_CHECK).is_zero() {
        set_flags(
            nodes,
            sub,
            flags.clear(Flags::RECURSED).join(Flags::PENDING),
        );
        flags
    } else if flags.mask(CHANGED).is_zero() && is_valid_link(nodes, links, s, sub) {
        set_flags(nodes, sub, flags.join(Flags::RECURSED.join(Flags::PENDING)));
        flags.mask(Flags::MUTABLE)
    } else {
        Flags::NONE
    }
}

// Visits the subscriber, and notifies it where the flags that are left have WATCHING.
fn reach(nodes: &mut [u64], links: &[u64], s: u64, sub: u64) -> Flags
    ensures bits_value { result.bits ≡ after (visit links.now nodes.old s sub) }
    ensures nodes_after { nodes.new ≡ reached links.now nodes.old s sub }
{
    let flags = visit(nodes, links, s, sub);
    if flags.mask(Flags::WATCHING).is_nonzero() {
        notify(nodes, links, sub);
    }
    flags
}

// The first subscriber link of a node, where the flags that are left have MUTABLE.
#[tactic(auto, using(marking::proofs::Tests::masked_nonzero, marking::proofs::WalkLaws::below_open, marking::proofs::WalkLaws::below_shut), unfolding(marking::specs::Walks::below))]
fn below(nodes: &[u64], sub: u64, flags: Flags) -> Slot
    ensures { result ≡ below nodes.now sub flags.bits }
{
    if flags.mask(Flags::MUTABLE).is_nonzero() {
        slots::open(words::get(nodes, NODE, sub, SUBS))
    } else {
        Slot::Nothing
    }
}

// The walk from a slot on, once a word is left aside on the way down: it lies on so many words that are nothing.
fn propagate_on(
    nodes: &mut [u64],
    links: &[u64],
    mut link: u64,
    mut next: u64,
    aside: u64,
    deep: u64,
    turns: usize,
)
    ensures { nodes.new ≡ walked links.now turns nodes.old (place link next (pushed blank deep aside) (pushed_len blank deep)) }
{
    let mut stack: Stack<1024> = Stack::blank(deep);
    stack.push(aside);
    'top: for _ in 0..turns {
        let sub = words::get(links, LINK, link, SUB);
        let flags = reach(nodes, links, link, sub);
        let Slot::At(down) = below(nodes, sub, flags) else {
            let Slot::At(along) = slots::open(next) else {
                while let Some(w) = stack.pop() {
                    let Slot::At(back) = slots::open(w) else {
                        continue;
                    };
                    link = back;
                    next = words::get(links, LINK, back, NEXT_SUB);
                    continue 'top;
                }
                return;
            };
            link = along;
            next = words::get(links, LINK, along, NEXT_SUB);
            continue 'top;
        };
        link = down;
        let over = words::get(links, LINK, down, NEXT_SUB);
        let Slot::At(_) = slots::open(over) else {
            continue 'top;
        };
        stack.push(next);
        next = over;
    }
}

// How high a stack of nothing is with one more on it.
#[tactic(auto, unfolding(stack::specs::Stack::pushed_len))]
fn one_higher(len: u64) -> u64
    ensures { result ≡ pushed_len blank len }
{
    if len < 1024 { len + 1 } else { len }
}

// From a slot: down where there is a way, else along, else back to what was left aside on the way down. As long as that is nothing, only its height is kept, and no
// stack is cleared.
pub fn propagate(nodes: &mut [u64], links: &[u64], s: u64)
    ensures { nodes.new ≡ propagated links.now nodes.old s }
{
    let mut link = s;
    let mut next = words::get(links, LINK, s, NEXT_SUB);
    let mut len = 0;
    let turns = links.len() / 8;
    for turn in 0..turns {
        let sub = words::get(links, LINK, link, SUB);
        let flags = reach(nodes, links, link, sub);
        let Slot::At(down) = below(nodes, sub, flags) else {
            let Slot::At(along) = slots::open(next) else {
                return;
            };
            link = along;
            next = words::get(links, LINK, along, NEXT_SUB);
            continue;
        };
        let over = words::get(links, LINK, down, NEXT_SUB);
        link = down;
        let Slot::At(_) = slots::open(over) else {
            continue;
        };
        if next != 0 {
            propagate_on(nodes, links, down, over, next, len, turns - turn - 1);
            return;
        }
        len = one_higher(len);
        next = over;
    }
}

// A subscriber that is pending and not dirty becomes dirty; one that watches and is not being checked is notified.
fn dirty(nodes: &mut [u64], links: &[u64], sub: u64)
    ensures { nodes.new ≡ dirtied links.now nodes.old sub }
{
    let flags = flags(nodes, sub);
    if flags.mask(CHANGED) == Flags::PENDING {
        set_flags(nodes, sub, flags.join(Flags::DIRTY));
        if flags.mask(Flags::WATCHING.join(Flags::RECURSED_CHECK)) == Flags::WATCHING {
            notify(nodes, links, sub);
        }
    }
}

// From slot s along the subscriber links of one node.
pub fn shallow_propagate(nodes: &mut [u64], links: &[u64], s: u64)
    ensures { nodes.new ≡ shallow links.now nodes.old s }
{
    for link in Walk::new(links, Slot::At(s), NEXT_SUB) {
        dirty(nodes, links, words::get(links, LINK, link, SUB));
    }
}
