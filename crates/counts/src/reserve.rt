// Document 01, "Reserve", and the live effects: sums over the nodes. They stop at the greatest u64, far above every capacity.
ghost use Rattle.std.specs.Prelude.{◌≡◌, ◌+◌, ◌*◌, min};
ghost use Rattle.counting.specs.Counts.{top, owned_link, reserve_of, reserve_in, effect_of, live_effects_in};

use crate::room::counted;
use primitive::kinds::Kind;
use primitive::rows::{GONE, KIND, NODE, OWNER, READS};
use primitive::words;

pub fn plus(a: u64, b: u64) -> u64
    ensures { result ≡ min top (a + b) }
{
    a.saturating_add(b)
}

// 1 for a node that has an owner: the link from it.
fn owned(owner: u64) -> u64
    ensures { result ≡ owned_link owner }
{
    u64::from(owner != 0)
}

// Twice the read cells: on a rerun old links stay until the purge. A gone effect or scope counts nothing. A word is read where its kind asks
// for it: each node that is made counts all nodes.
#[tactic(auto, unfolding(counting::specs::Counts::reserve_of))]
pub fn reserve_of(nodes: &[u64], n: u64) -> u64
    ensures { result ≡ min top (reserve_of nodes.now n) }
{
    match Kind::of_word(words::get(nodes, NODE, n, KIND)) {
        Some(Kind::Signal) => 0,
        Some(Kind::Computed) => {
            let reads = words::get(nodes, NODE, n, READS);
            plus(reads, reads)
        }
        Some(Kind::Effect) => if words::get(nodes, NODE, n, GONE) != 0 {
            0
        } else {
            let named = words::get(nodes, NODE, n, READS);
            let link = owned(words::get(nodes, NODE, n, OWNER));
            plus(plus(named, named), link)
        },
        Some(Kind::Scope) | None => if words::get(nodes, NODE, n, GONE) != 0 {
            0
        } else {
            owned(words::get(nodes, NODE, n, OWNER))
        },
    }
}

pub fn reserve(nodes: &[u64]) -> u64
    ensures { result ≡ reserve_in nodes.now }
{
    let mut sum = 0;
    for n in 0..counted(nodes) {
        sum = plus(sum, reserve_of(nodes, n));
    }
    sum
}

// 1 for a live effect.
#[tactic(auto, unfolding(counting::specs::Counts::effect_of))]
fn effect_of(nodes: &[u64], n: u64) -> u64
    ensures { result ≡ effect_of nodes.now n }
{
    let live = words::get(nodes, NODE, n, GONE) == 0;
    match Kind::of_word(words::get(nodes, NODE, n, KIND)) {
        Some(Kind::Effect) => u64::from(live),
        _ => 0,
    }
}

pub fn live_effects(nodes: &[u64]) -> u64
    ensures { result ≡ live_effects_in nodes.now }
{
    let mut sum = 0;
    for n in 0..counted(nodes) {
        sum += effect_of(nodes, n);
    }
    sum
}
