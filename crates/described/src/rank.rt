// The rank of a node: a formula reads only nodes of lower rank. Every test of the order in this crate goes through here.
ghost use Rattle.std.specs.Prelude.{◌≡◌};
ghost use Rattle.telling.specs.Formulas.{lower_rank};

// Whether node m is of lower rank than node n. A test, where the crate `reads` has the number itself: the contracts here speak of the test alone.
#[tactic(auto, unfolding(telling::specs::Formulas::lower_rank))]
pub fn lower(m: u64, n: u64) -> bool
    ensures { result ≡ lower_rank m n }
{
    m < n
}
