// The level of a node: the height of a signal or a computed, the owner depth of an effect or a scope. It is kept by gone nodes too.
ghost use Rattle.std.specs.Prelude.{◌≡◌};
ghost use Rattle.telling.specs.Levels.{level_kept};

use primitive::rows::{LEVEL, NODE};
use primitive::words;

// Whether node n's level is the one given, and at most the greatest allowed.
#[tactic(auto, unfolding(telling::specs::Levels::level_kept))]
pub fn level_kept(nodes: &[u64], n: u64, level: u64, most: u64) -> bool
    ensures { result ≡ level_kept nodes.now n level most }
{
    level <= most && words::get(nodes, NODE, n, LEVEL) == level
}
