#![tactic(auto)]

// The queue of effects: a column of the node table. Row 0 holds its length, row i + 1 its entry i, so it never holds more entries than there are rows.
ghost use Rattle.std.specs.Prelude.{◌≡◌};
ghost use Rattle.queue.specs.Queue.{count, entry_at, pushed, emptied, swapped, reversed_from};

use primitive::rows::{NODE, QUEUE};
use primitive::words;

// As many entries as the length word says, but no more than there are rows for.
#[tactic(auto, unfolding(crate::specs::Queue::count))]
pub fn length(nodes: &[u64]) -> u64
    ensures { result ≡ count nodes.now }
{
    words::at(nodes, QUEUE).min((nodes.len() / 16).saturating_sub(1) as u64)
}

#[tactic(auto, unfolding(crate::specs::Queue::entry_at))]
pub fn entry(nodes: &[u64], i: u64) -> u64
    ensures { result ≡ entry_at nodes.now i }
{
    words::get(nodes, NODE, i, QUEUE)
}

// Behind the last. A full queue stays as it is.
#[tactic(auto, using(crate::proofs::QueueLaws::count_le), unfolding(crate::specs::Queue::pushed))]
pub fn push(nodes: &mut [u64], e: u64)
    ensures { nodes.new ≡ pushed nodes.old e }
{
    let n = length(nodes);
    if n + 1 < (nodes.len() / 16) as u64 {
        words::store(nodes, NODE, n, QUEUE, e);
        words::put(nodes, QUEUE, n + 1);
    }
}

#[tactic(auto, unfolding(crate::specs::Queue::emptied))]
pub fn clear(nodes: &mut [u64])
    ensures { nodes.new ≡ emptied nodes.old }
{
    words::put(nodes, QUEUE, 0);
}

#[tactic(auto, unfolding(crate::specs::Queue::swapped))]
fn swap(nodes: &mut [u64], i: u64, j: u64)
    ensures { nodes.new ≡ swapped nodes.old i j }
{
    let a = entry(nodes, i);
    let b = entry(nodes, j);
    words::store(nodes, NODE, i, QUEUE, b);
    words::store(nodes, NODE, j, QUEUE, a);
}

// The entries from `from` on, last first; those before it stay. Both ends move, so no `for` says it more plainly; the library turns a slice,
// and these entries lie a row apart.
pub fn reverse_from(nodes: &mut [u64], from: u64)
    ensures { nodes.new ≡ reversed_from nodes.old from }
{
    let mut lo = from;
    let mut hi = length(nodes);
    while lo < hi {
        hi -= 1;
        swap(nodes, lo, hi);
        lo += 1;
    }
}
