#![tactic(auto)]

// How the tables are linked, flagged and queued: the second half of the test whether they are well formed. The first half says what they tell of nodes.
// It only reads. Every function takes any words.
mod depends;
mod flagged;
mod linked;
mod named;
mod queued;

ghost use Rattle.std.specs.Prelude.{◌≡◌};
ghost use Rattle.resting.specs.Joined.{flagged_at, rests_at, rest_in, joined_in};

use counts::room;
use primitive::rows::{DEPS, NODE, READS};
use primitive::words;

// Whether node n has no more read links than read cells, and flags that its kind may have at rest.
#[tactic(auto, unfolding(resting::specs::Joined::flagged_at))]
fn flagged_at(nodes: &[u64], links: &[u64], n: u64) -> bool
    ensures { result ≡ flagged_at nodes.now links.now n }
{
    let reads = named::read_links(nodes, links, words::get(nodes, NODE, n, DEPS));
    reads <= words::get(nodes, NODE, n, READS) && flagged::flags_on(nodes, n, reads)
}

// What is asked of node n alone.
#[tactic(auto, unfolding(resting::specs::Joined::rests_at))]
fn rests_at(nodes: &[u64], links: &[u64], n: u64) -> bool
    ensures { result ≡ rests_at nodes.now links.now n }
{
    depends::depends_at(nodes, links, n)
        && depends::owned_at(nodes, links, n)
        && flagged_at(nodes, links, n)
}

// From the last node down: the first that is not at rest ends it.
fn rest(nodes: &[u64], links: &[u64]) -> bool
    ensures { result ≡ rest_in nodes.now links.now }
{
    for n in (0..room::counted(nodes)).rev() {
        if !rests_at(nodes, links, n) {
            return false;
        }
    }
    true
}

#[tactic(auto, unfolding(resting::specs::Joined::joined_in))]
pub fn joined(nodes: &[u64], links: &[u64], cells: &[i64]) -> bool
    ensures { result ≡ joined_in nodes.now links.now cells.now }
{
    linked::linked(nodes, links)
        && rest(nodes, links)
        && named::named(nodes, links, cells)
        && queued::queued(nodes)
}
