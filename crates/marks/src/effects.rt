// notify: an effect and the watching effects that own it go into the queue, owners first.
// The climb to them has a budget of a turn for each row. Each turn clears a WATCHING bit that the turn before saw, so the budget is never what ends it.
ghost use Rattle.std.specs.Prelude.{◌≡◌};
ghost use Rattle.primitive.specs.Words.{node_rows};
ghost use Rattle.marking.specs.Notify.{queued, climbed, notified};

use crate::nodes::{flags, set_flags};
use flags::Flags;
use primitive::rows::{LINK, NODE, SUB, SUBS};
use primitive::slots::Slot;
use primitive::{slots, words};

// Without WATCHING, so that it is not queued twice.
#[tactic(auto, unfolding(marking::specs::Notify::queued))]
fn enqueue(nodes: &mut [u64], e: u64)
    ensures { nodes.new ≡ queued nodes.old e }
{
    set_flags(nodes, e, flags(nodes, e).clear(Flags::WATCHING));
    queue::push(nodes, e);
}

// From e up through its watching owners, each queued as it is met.
fn climb(nodes: &mut [u64], links: &[u64], mut e: u64)
    ensures { nodes.new ≡ climbed links.now (node_rows nodes.old) nodes.old e }
{
    for _ in 0..nodes.len() / 16 {
        enqueue(nodes, e);
        let Slot::At(s) = slots::open(words::get(nodes, NODE, e, SUBS)) else {
            return;
        };
        e = words::get(links, LINK, s, SUB);
        if flags(nodes, e).mask(Flags::WATCHING).is_zero() {
            return;
        }
    }
}

// The climb queues an effect before its owner; the new part is then reversed, and what was queued before stays.
pub fn notify(nodes: &mut [u64], links: &[u64], e: u64)
    ensures { nodes.new ≡ notified links.now nodes.old e }
{
    let chain_head = queue::length(nodes);
    climb(nodes, links, e);
    queue::reverse_from(nodes, chain_head);
}
