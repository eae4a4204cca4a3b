// The ring of calls through which links go: unlink, unwatched, dispose, purge_deps. Each turn of the ring frees a slot first, so live links fall. The contracts
// say what is left for every bound on the live links; the file unlink.rt says it plainly.
ghost use Rattle.std.specs.Prelude.{◌≡◌};
ghost use Rattle.linking.specs.Table.{tab};
ghost use Rattle.linking.specs.Ring.{is_only, is_mutable, reset, retired, cut_out, Unlinks, Unwatches, Disposes, Purges};

use crate::{free, neighbours};
use flags::Flags;
use primitive::rows::{
    DEP, DEPS, DEPS_TAIL, FLAGS, GONE, LINK, NEXT_DEP, NEXT_SUB, NODE, PREV_DEP, PREV_SUB, SUB,
    SUBS, SUBS_TAIL,
};
use primitive::slots::Slot;
use primitive::{slots, words};

// Whether the slot is its dependency's only subscriber.
#[tactic(auto, unfolding(linking::specs::Ring::is_only))]
fn is_only(links: &[u64], s: u64) -> bool
    ensures { result ≡ is_only links.now s }
{
    let Slot::At(_) = slots::open(words::get(links, LINK, s, PREV_SUB)) else {
        return words::get(links, LINK, s, NEXT_SUB) == 0;
    };
    false
}

#[tactic(auto, using(flags::proofs::FlagLaws::tells), unfolding(linking::specs::Ring::is_mutable))]
fn is_mutable(nodes: &[u64], n: u64) -> bool
    ensures { result ≡ is_mutable nodes.now n }
{
    let flags = Flags::of_word(words::get(nodes, NODE, n, FLAGS));
    flags.mask(Flags::MUTABLE).is_nonzero()
}

// No dependency of node n is kept, and these are its flags.
#[tactic(auto, unfolding(linking::specs::Ring::reset))]
fn reset(nodes: &mut [u64], n: u64, flags: Flags)
    ensures { nodes.new ≡ reset nodes.old n flags.bits }
{
    words::store(nodes, NODE, n, DEPS_TAIL, 0);
    words::store(nodes, NODE, n, FLAGS, u64::from(flags));
}

// Node n is gone for good.
#[tactic(auto, unfolding(linking::specs::Ring::retired))]
fn retire(nodes: &mut [u64], n: u64)
    ensures { nodes.new ≡ retired nodes.old n }
{
    reset(nodes, n, Flags::NONE);
    words::store(nodes, NODE, n, GONE, 1);
}

// Mends the neighbours of a slot in both of its lists, and frees it.
fn cut_out(nodes: &mut [u64], links: &mut [u64], s: u64, sub: u64)
    ensures { tab nodes.new links.new ≡ cut_out (tab nodes.old links.old) s sub }
{
    let dep = words::get(links, LINK, s, DEP);
    let prev_dep = words::get(links, LINK, s, PREV_DEP);
    let next_dep = words::get(links, LINK, s, NEXT_DEP);
    let prev_sub = words::get(links, LINK, s, PREV_SUB);
    let next_sub = words::get(links, LINK, s, NEXT_SUB);
    neighbours::set_beside(nodes, links, next_dep, PREV_DEP, sub, DEPS_TAIL, prev_dep);
    neighbours::set_beside(nodes, links, prev_dep, NEXT_DEP, sub, DEPS, next_dep);
    neighbours::set_beside(nodes, links, next_sub, PREV_SUB, dep, SUBS_TAIL, prev_sub);
    neighbours::set_beside(nodes, links, prev_sub, NEXT_SUB, dep, SUBS, next_sub);
    free::release(links, s);
}

// A live slot goes, and a dependency that has lost its last subscriber is told. The answer is what came after it among sub's dependencies; nothing, of a slot that
// is not live.
#[cycle(dispose_purge_deps_unlink_unwatched)]
pub fn unlink(nodes: &mut [u64], links: &mut [u64], s: u64, sub: u64) -> Slot
    ensures { Unlinks (tab nodes.old links.old) s sub result (tab nodes.new links.new) }
{
    if !free::is_live(links, s) {
        return Slot::Nothing;
    }
    let dep = words::get(links, LINK, s, DEP);
    let next = slots::open(words::get(links, LINK, s, NEXT_DEP));
    let only = is_only(links, s);
    cut_out(nodes, links, s, sub);
    if only {
        unwatched(nodes, links, dep);
    }
    next
}

// A computed drops its dependencies; an effect or a scope is disposed of.
#[cycle(dispose_purge_deps_unlink_unwatched)]
pub fn unwatched(nodes: &mut [u64], links: &mut [u64], n: u64)
    ensures { Unwatches (tab nodes.old links.old) n (tab nodes.new links.new) }
{
    if !is_mutable(nodes, n) {
        dispose(nodes, links, n);
        return;
    }
    let Slot::At(_) = slots::open(words::get(nodes, NODE, n, DEPS_TAIL)) else {
        return;
    };
    reset(nodes, n, Flags::MUTABLE.join(Flags::DIRTY));
    purge_deps(nodes, links, n);
}

// The Rust's effect_scope_oper: what n depends on goes, with what it owns, and then its own link to its owner.
#[cycle(dispose_purge_deps_unlink_unwatched)]
pub fn dispose(nodes: &mut [u64], links: &mut [u64], n: u64)
    ensures { Disposes (tab nodes.old links.old) n (tab nodes.new links.new) }
{
    retire(nodes, n);
    purge_deps(nodes, links, n);
    let Slot::At(s) = slots::open(words::get(nodes, NODE, n, SUBS)) else {
        return;
    };
    let sub = words::get(links, LINK, s, SUB);
    unlink(nodes, links, s, sub);
}

// The dependencies of sub that its last run did not reach: all behind its tail.
#[cycle(dispose_purge_deps_unlink_unwatched)]
pub fn purge_deps(nodes: &mut [u64], links: &mut [u64], sub: u64)
    ensures { Purges (tab nodes.old links.old) sub (tab nodes.new links.new) }
{
    let tail = words::get(nodes, NODE, sub, DEPS_TAIL);
    let mut dep = slots::open(neighbours::next_dep(nodes, links, sub, tail));
    loop {
        let Slot::At(s) = dep else {
            return;
        };
        dep = unlink(nodes, links, s, sub);
    }
}
