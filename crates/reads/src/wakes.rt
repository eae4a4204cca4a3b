// A node's value has changed: its subscribers that are pending become dirty.
ghost use Rattle.std.specs.Prelude.{◌≡◌};
ghost use Rattle.reading.specs.Steps.{woken, woken_others};

use marks::walks::shallow_propagate;
use primitive::rows::{LINK, NEXT_SUB, NODE, SUBS};
use primitive::slots::Slot;
use primitive::{slots, words};

#[tactic(auto, unfolding(reading::specs::Steps::woken))]
pub fn wake(nodes: &mut [u64], links: &[u64], n: u64)
    ensures { nodes.new ≡ woken links.now nodes.old n }
{
    let Slot::At(s) = slots::open(words::get(nodes, NODE, n, SUBS)) else {
        return;
    };
    shallow_propagate(nodes, links, s);
}

// The dirty check's rule: the one subscriber that asks is told by the answer, so only further ones are woken.
#[tactic(auto, unfolding(reading::specs::Steps::woken_others))]
pub fn wake_others(nodes: &mut [u64], links: &[u64], n: u64)
    ensures { nodes.new ≡ woken_others links.now nodes.old n }
{
    let Slot::At(s) = slots::open(words::get(nodes, NODE, n, SUBS)) else {
        return;
    };
    let Slot::At(_) = slots::open(words::get(links, LINK, s, NEXT_SUB)) else {
        return;
    };
    shallow_propagate(nodes, links, s);
}
