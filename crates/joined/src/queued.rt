// The queue: each live effect without WATCHING once, maybe gone ones with flags 0 once, nothing else. At depth 0 it is empty.
ghost use Rattle.std.specs.Prelude.{◌≡◌};
ghost use Rattle.lists.specs.Sum.{count};
ghost use Rattle.lists.specs.Once.{spend};
ghost use Rattle.queue.specs.Queue.{queue_of};
ghost use Rattle.counting.specs.Counts.{counted_in};
ghost use Rattle.resting.specs.Queued.{waits_on, may_wait, lives, due, scanned, idle, queued_in};

use crate::named::SEEN;
use counts::room;
use primitive::kinds::Kind;
use primitive::rows::{DEPTH, FLAGS, GONE, KIND, NODE, QUEUE};
use primitive::words;

// Whether an effect is without WATCHING: the other flags of a live one are 0, 32 and 48, of a gone one 0.
#[tactic(auto, unfolding(resting::specs::Queued::waits_on))]
fn waits_on(gone: u64, flags: u64) -> bool
    ensures { result ≡ waits_on gone flags }
{
    if gone == 0 { flags != 2 } else { flags == 0 }
}

// Whether e may stand in the queue.
#[tactic(auto, unfolding(resting::specs::Queued::may_wait))]
fn may_wait(nodes: &[u64], e: u64) -> bool
    ensures { result ≡ may_wait nodes.now e }
{
    e < room::counted(nodes)
        && Kind::of_word(words::get(nodes, NODE, e, KIND)) == Some(Kind::Effect)
        && waits_on(
            words::get(nodes, NODE, e, GONE),
            words::get(nodes, NODE, e, FLAGS),
        )
}

#[tactic(auto, unfolding(resting::specs::Queued::lives))]
fn lives(nodes: &[u64], e: u64) -> bool
    ensures { result ≡ lives nodes.now e }
{
    words::get(nodes, NODE, e, GONE) == 0
}

// One off the budget where it counts.
fn pay(live: bool, budget: u64) -> Option<u64>
    ensures { result ≡ spend live budget }
{
    if live {
        budget.checked_sub(1)
    } else {
        Some(budget)
    }
}

// The entries in order, each marked as it is met, the live ones taken off the budget.
#[tactic(auto, using(crate::proofs::QueueTurns::scan_start, crate::proofs::QueueTurns::scan_end, crate::proofs::QueueTurns::scan_bad, crate::proofs::QueueTurns::scan_seen, crate::proofs::QueueTurns::scan_broke, crate::proofs::QueueTurns::scan_turn), unfolding(resting::specs::Queued::scanned, queue::specs::Queue::queue_of))]
fn scan(nodes: &[u64], seen: &mut [u64], budget: u64) -> Option<u64>
    ensures { result ≡ scanned nodes.now seen.old (queue_of nodes.now) budget }
{
    let n = queue::length(nodes);
    let mut left = budget;
    for i in 0..n {
        let e = queue::entry(nodes, i);
        if !may_wait(nodes, e) || words::at(seen, e) != 0 {
            return None;
        }
        left = pay(lives(nodes, e), left)?;
        words::put(seen, e, 1);
    }
    Some(left)
}

// Whether e is a live effect without WATCHING.
#[tactic(auto, unfolding(resting::specs::Queued::due))]
fn due(nodes: &[u64], e: u64) -> bool
    ensures { result ≡ due nodes.now e }
{
    may_wait(nodes, e) && lives(nodes, e)
}

fn count_due(nodes: &[u64]) -> u64
    ensures { result ≡ count (due nodes.now) (counted_in nodes.now) }
{
    (0..room::counted(nodes)).filter(|e| due(nodes, *e)).count() as u64
}

#[tactic(auto, unfolding(resting::specs::Queued::idle))]
fn idle(depth: u64, len: u64) -> bool
    ensures { result ≡ idle depth len }
{
    depth != 0 || len == 0
}

#[tactic(auto, unfolding(resting::specs::Queued::queued_in, resting::specs::Blank::blank))]
pub fn queued(nodes: &[u64]) -> bool
    ensures { result ≡ queued_in nodes.now }
{
    let depth = words::at(nodes, DEPTH);
    let len = words::at(nodes, QUEUE);
    if depth > room::MOST_DEPTH || !idle(depth, len) || len > room::counted(nodes) {
        return false;
    }
    let mut seen = [0u64; SEEN];
    scan(nodes, &mut seen, count_due(nodes)) == Some(0)
}
