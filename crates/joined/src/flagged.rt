// The flags that a node may have at rest, by kind. deps and subs are the heads of its lists, reads the number of its read links.
ghost use Rattle.std.specs.Prelude.{◌≡◌};
ghost use Rattle.primitive.specs.Words.{node};
ghost use Rattle.resting.specs.Flagged.{signal_flags, computed_flags, effect_flags, gone_flags, flags_on};

use primitive::kinds::Kind;
use primitive::rows::{DEPS, FLAGS, GONE, KIND, NODE, SUBS};
use primitive::words;

// By number, as document 01 says them: sums of 1 mutable, 2 watching, 16 dirty, 32 pending.
#[tactic(auto, unfolding(resting::specs::Flagged::signal_flags))]
fn signal_flags(flags: u64) -> bool
    ensures { result ≡ signal_flags flags }
{
    matches!(flags, 1 | 17)
}

#[tactic(auto, unfolding(resting::specs::Flagged::computed_flags))]
fn computed_flags(flags: u64, deps: u64, subs: u64) -> bool
    ensures { result ≡ computed_flags flags deps subs }
{
    match flags {
        0 => deps == 0 && subs == 0,
        1 => true,
        17 => deps == 0,
        33 | 49 => deps != 0,
        _ => false,
    }
}

#[tactic(auto, unfolding(resting::specs::Flagged::effect_flags))]
fn effect_flags(flags: u64, reads: u64) -> bool
    ensures { result ≡ effect_flags flags reads }
{
    match flags {
        0 | 2 => true,
        32 | 48 => reads != 0,
        _ => false,
    }
}

#[tactic(auto, unfolding(resting::specs::Flagged::gone_flags))]
fn gone_flags(flags: u64) -> bool
    ensures { result ≡ gone_flags flags }
{
    matches!(flags, 0 | 2)
}

// Node n, with so many read links.
#[tactic(auto, unfolding(resting::specs::Flagged::flags_on))]
pub fn flags_on(nodes: &[u64], n: u64, reads: u64) -> bool
    ensures { result ≡ flags_on (node nodes.now n KIND) (node nodes.now n GONE) (node nodes.now n FLAGS) (node nodes.now n DEPS) (node nodes.now n SUBS) reads }
{
    let flags = words::get(nodes, NODE, n, FLAGS);
    let deps = words::get(nodes, NODE, n, DEPS);
    let subs = words::get(nodes, NODE, n, SUBS);
    let gone = words::get(nodes, NODE, n, GONE);
    match Kind::of_word(words::get(nodes, NODE, n, KIND)) {
        Some(Kind::Signal) => signal_flags(flags),
        Some(Kind::Computed) => computed_flags(flags, deps, subs),
        Some(Kind::Effect) if gone == 0 => effect_flags(flags, reads),
        Some(Kind::Effect) => gone_flags(flags),
        Some(Kind::Scope) => flags == 0,
        None => false,
    }
}
