// What goes before and after the evaluation of a computed. After update_computed and the first evaluation of computed_oper.
ghost use Rattle.std.specs.Prelude.{◌≡◌, List, ℕ, ℤ};
ghost use Rattle.reading.specs.Tables.{state, told};
ghost use Rattle.reading.specs.Steps.{begun, finished, begun_first, finished_first};

use crate::cycle::raise_cycle;
use crate::places;
use flags::Flags;
use links::unlink::purge_deps;
use marks::nodes::{flags, set_flags};
use primitive::rows::{DEPS_TAIL, NODE};
use primitive::words;
use values::Value;

// A first evaluation is in the cycle at hand.
#[tactic(auto, unfolding(reading::specs::Steps::begun_first))]
pub fn begin_first(nodes: &mut [u64], n: u64)
    ensures { nodes.new ≡ begun_first nodes.old n }
{
    set_flags(nodes, n, Flags::EVALUATING);
}

// A re-evaluation is in a new cycle, and no dependency is reached yet.
#[tactic(auto, unfolding(reading::specs::Steps::begun))]
pub fn begin(nodes: &mut [u64], links: &mut [u64], n: u64)
    ensures { (v : List ℤ) → state nodes.new links.new v ≡ begun (state nodes.old links.old v) n }
{
    raise_cycle(links);
    words::store(nodes, NODE, n, DEPS_TAIL, 0);
    begin_first(nodes, n);
}

// The value is kept. There was no dependency before, so none goes.
#[tactic(auto, unfolding(reading::specs::Steps::finished_first))]
pub fn finish_first(nodes: &mut [u64], values: &mut [i64], n: u64, v: Value)
    ensures { (l : List ℕ) → state nodes.new l values.new ≡ finished_first (state nodes.old l values.old) n v }
{
    places::keep_current(values, n, v);
    set_flags(nodes, n, flags(nodes, n).clear(Flags::RECURSED_CHECK));
}

// The dependencies that were not reached go. The answer is whether the value changed.
#[tactic(auto, using(values::proofs::ValueLaws::eq_same), unfolding(reading::specs::Steps::finished))]
pub fn finish(nodes: &mut [u64], links: &mut [u64], values: &mut [i64], n: u64, v: Value) -> bool
    ensures { told result (state nodes.new links.new values.new) ≡ finished (state nodes.old links.old values.old) n v }
{
    let old = places::current(values, n);
    finish_first(nodes, values, n, v);
    purge_deps(nodes, links, n);
    old != v
}
