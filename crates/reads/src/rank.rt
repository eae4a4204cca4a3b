// The rank of a node: a formula reads only nodes of lower rank. Every test of the order in this crate goes through it.
ghost use Rattle.std.specs.Prelude.{◌≡◌};
ghost use Rattle.reading.specs.Tables.{rank_of};

// A number and no test: the contracts of the ring measure its calls by it.
#[tactic(auto, unfolding(reading::specs::Tables::rank_of))]
pub fn rank(n: u64) -> u64
    ensures { result ≡ rank_of n }
{
    n
}
