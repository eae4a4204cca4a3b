// A subscriber reads a dependency: the link that says so. The four ways of the Rust's link, in its order. Added: where no slot is free nothing at all changes;
// the reserve keeps that from happening.
ghost use Rattle.std.specs.Prelude.{◌≡◌};
ghost use Rattle.linking.specs.Free.{fresh};
ghost use Rattle.linking.specs.Table.{tab};
ghost use Rattle.linking.specs.Link.{names, newest, made, set_back, inserted, reused, linked};

use crate::{free, neighbours};
use linking::link::LinkInit;
use primitive::rows::{
    DEP, DEPS, DEPS_TAIL, LINK, NEXT_DEP, NEXT_SUB, NODE, PREV_DEP, PREV_SUB, SUB, SUBS, SUBS_TAIL,
    VERSION,
};
use primitive::slots::Slot;
use primitive::{slots, words};
use version::Version;

// Whether the slot that w names depends on dep.
#[tactic(auto, unfolding(linking::specs::Link::names))]
fn names(links: &[u64], w: u64, dep: u64) -> bool
    ensures { result ≡ names links.now w dep }
{
    let Slot::At(s) = slots::open(w) else {
        return false;
    };
    words::get(links, LINK, s, DEP) == dep
}

// Whether dep's last subscriber is sub at this version.
#[tactic(auto, unfolding(linking::specs::Link::newest))]
fn is_newest(nodes: &[u64], links: &[u64], dep: u64, sub: u64, version: Version) -> bool
    ensures { result ≡ newest (tab nodes.now links.now) dep sub version.cycle }
{
    let Slot::At(s) = slots::open(words::get(nodes, NODE, dep, SUBS_TAIL)) else {
        return false;
    };
    let used = Version {
        cycle: words::get(links, LINK, s, VERSION),
    };
    used == version && words::get(links, LINK, s, SUB) == sub
}

// A slot with these words, and its word; 0 where none is free, as `free::take` answers. A word and no Slot: `made` says it, and the tables keep it as it is.
fn new_link(links: &mut [u64], init: LinkInit) -> u64
    ensures { fresh result links.new ≡ made links.old init }
{
    let w = free::take(links);
    let Slot::At(s) = slots::open(w) else {
        return 0;
    };
    words::store(links, LINK, s, VERSION, init.version);
    words::store(links, LINK, s, DEP, init.dep);
    words::store(links, LINK, s, SUB, init.sub);
    words::store(links, LINK, s, PREV_SUB, init.prev_sub);
    words::store(links, LINK, s, NEXT_SUB, 0);
    words::store(links, LINK, s, PREV_DEP, init.prev_dep);
    words::store(links, LINK, s, NEXT_DEP, init.next_dep);
    w
}

#[tactic(auto, unfolding(linking::specs::Link::set_back))]
fn set_back(links: &mut [u64], next: u64, w: u64)
    ensures { links.new ≡ set_back links.old next w }
{
    let Slot::At(s) = slots::open(next) else {
        return;
    };
    words::store(links, LINK, s, PREV_DEP, w);
}

// A new link at the end of the subscribers and behind prev_dep among the dependencies.
fn insert(nodes: &mut [u64], links: &mut [u64], init: LinkInit)
    ensures { tab nodes.new links.new ≡ inserted (tab nodes.old links.old) init }
{
    let w = new_link(links, init);
    let Slot::At(_) = slots::open(w) else {
        return;
    };
    words::store(nodes, NODE, init.dep, SUBS_TAIL, w);
    words::store(nodes, NODE, init.sub, DEPS_TAIL, w);
    set_back(links, init.next_dep, w);
    neighbours::set_beside(nodes, links, init.prev_dep, NEXT_DEP, init.sub, DEPS, w);
    neighbours::set_beside(nodes, links, init.prev_sub, NEXT_SUB, init.dep, SUBS, w);
}

// The link that w names serves again.
#[tactic(auto, unfolding(linking::specs::Link::reused))]
fn reuse(nodes: &mut [u64], links: &mut [u64], sub: u64, version: Version, w: u64)
    ensures { tab nodes.new links.new ≡ reused (tab nodes.old links.old) sub version.cycle w }
{
    let Slot::At(s) = slots::open(w) else {
        return;
    };
    words::store(links, LINK, s, VERSION, version.cycle);
    words::store(nodes, NODE, sub, DEPS_TAIL, w);
}

pub fn link(nodes: &mut [u64], links: &mut [u64], dep: u64, sub: u64, version: Version)
    ensures { tab nodes.new links.new ≡ linked (tab nodes.old links.old) dep sub version.cycle }
{
    let prev_dep = words::get(nodes, NODE, sub, DEPS_TAIL);
    if names(links, prev_dep, dep) {
        return;
    }
    let next_dep = neighbours::next_dep(nodes, links, sub, prev_dep);
    if names(links, next_dep, dep) {
        reuse(nodes, links, sub, version, next_dep);
        return;
    }
    if is_newest(nodes, links, dep, sub, version) {
        return;
    }
    let init = LinkInit {
        version: version.cycle,
        dep,
        sub,
        prev_dep,
        next_dep,
        prev_sub: words::get(nodes, NODE, dep, SUBS_TAIL),
    };
    insert(nodes, links, init);
}
