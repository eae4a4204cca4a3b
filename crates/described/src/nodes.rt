// What a node's row must say, by its kind.
ghost use Rattle.std.specs.Prelude.{◌≡◌};
ghost use Rattle.telling.specs.Nodes.{stands_alone, signal_in, computed_in, scope_in, effect_in, node_in, nodes_in};

use crate::formulas::{formula, own_cells};
use crate::levels::level_kept;
use counts::depths::{MOST_OWNER_DEPTH, depth_under};
use formula::scans::{MOST_HEIGHT, height};
use primitive::kinds::Kind;
use primitive::rows::{GONE, KIND, LEVEL, NODE, OWNER};
use primitive::words;

// Signals and computeds are never gone and have no owner.
#[tactic(auto, unfolding(telling::specs::Nodes::stands_alone))]
fn stands_alone(nodes: &[u64], n: u64) -> bool
    ensures { result ≡ stands_alone nodes.now n }
{
    words::get(nodes, NODE, n, GONE) == 0 && words::get(nodes, NODE, n, OWNER) == 0
}

#[tactic(auto, unfolding(telling::specs::Nodes::signal_in))]
fn signal(nodes: &[u64], n: u64) -> bool
    ensures { result ≡ signal_in nodes.now n }
{
    stands_alone(nodes, n) && words::get(nodes, NODE, n, LEVEL) == 0
}

#[tactic(auto, using(crate::proofs::LevelLaws::kept_whole), unfolding(telling::specs::Nodes::computed_in))]
fn computed(nodes: &[u64], cells: &[i64], n: u64) -> bool
    ensures { result ≡ computed_in nodes.now cells.now n }
{
    let own = own_cells(nodes, cells, n);
    stands_alone(nodes, n)
        && formula(nodes, own, n)
        && level_kept(nodes, n, height(nodes, own), MOST_HEIGHT)
}

// A scope has no formula. Its depth is tested when it is gone, too.
#[tactic(auto, using(crate::proofs::LevelLaws::kept_whole), unfolding(telling::specs::Nodes::scope_in))]
fn scope(nodes: &[u64], n: u64) -> bool
    ensures { result ≡ scope_in nodes.now n }
{
    let owner = words::get(nodes, NODE, n, OWNER);
    words::get(nodes, NODE, n, GONE) <= 1
        && owner <= n
        && level_kept(nodes, n, depth_under(nodes, owner), MOST_OWNER_DEPTH)
}

#[tactic(auto, unfolding(telling::specs::Nodes::effect_in))]
fn effect(nodes: &[u64], cells: &[i64], n: u64) -> bool
    ensures { result ≡ effect_in nodes.now cells.now n }
{
    scope(nodes, n) && formula(nodes, own_cells(nodes, cells, n), n)
}

#[tactic(auto, unfolding(telling::specs::Nodes::node_in))]
fn node(nodes: &[u64], cells: &[i64], n: u64) -> bool
    ensures { result ≡ node_in nodes.now cells.now n }
{
    match Kind::of_word(words::get(nodes, NODE, n, KIND)) {
        Some(Kind::Signal) => signal(nodes, n),
        Some(Kind::Computed) => computed(nodes, cells, n),
        Some(Kind::Effect) => effect(nodes, cells, n),
        Some(Kind::Scope) => scope(nodes, n),
        None => false,
    }
}

// The nodes below `count`, from the last one down: the first that is not as its kind asks ends it.
pub fn every_node(nodes: &[u64], cells: &[i64], count: u64) -> bool
    ensures { result ≡ nodes_in nodes.now cells.now count }
{
    for n in (0..count).rev() {
        if !node(nodes, cells, n) {
            return false;
        }
    }
    true
}
