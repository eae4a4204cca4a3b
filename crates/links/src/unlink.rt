// How links go, for callers: the ring of calls, each with what it leaves in every word.
ghost use Rattle.std.specs.Prelude.{◌≡◌};
ghost use Rattle.linking.specs.Table.{tab};
ghost use Rattle.linking.specs.Ring.{out, unlinked, unwatched, disposed, purged};

use crate::ring;
use primitive::slots::Slot;

// Slot s leaves both of its lists and is free; the answer is what came after it among sub's dependencies. A slot that is not live is left alone, and nothing is answered.
pub fn unlink(nodes: &mut [u64], links: &mut [u64], s: u64, sub: u64) -> Slot
    ensures { out result (tab nodes.new links.new) ≡ unlinked (tab nodes.old links.old) s sub }
{
    ring::unlink(nodes, links, s, sub)
}

// Node n has lost its last subscriber.
pub fn unwatched(nodes: &mut [u64], links: &mut [u64], n: u64)
    ensures { tab nodes.new links.new ≡ unwatched (tab nodes.old links.old) n }
{
    ring::unwatched(nodes, links, n);
}

// The Rust's effect_scope_oper: an effect or scope goes, with all that it owns.
pub fn dispose(nodes: &mut [u64], links: &mut [u64], n: u64)
    ensures { tab nodes.new links.new ≡ disposed (tab nodes.old links.old) n }
{
    ring::dispose(nodes, links, n);
}

// The dependencies of sub behind its tail go: all of them where it has none.
pub fn purge_deps(nodes: &mut [u64], links: &mut [u64], sub: u64)
    ensures { tab nodes.new links.new ≡ purged (tab nodes.old links.old) sub }
{
    ring::purge_deps(nodes, links, sub);
}
