// The read links of a node: how many they are, and that they go only to nodes that its read cells name.
ghost use Rattle.std.specs.Prelude.{◌≡◌};
ghost use Rattle.counting.specs.Counts.{counted_in, slot_room};
ghost use Rattle.resting.specs.Named.{reads_from, stamp_cell, stamp_cells, stamp_node, stamped, links_stamped, named_from, named_in};

use crate::depends;
use counts::room;
use formula::cells::name_at;
use formula::legal;
use primitive::rows::{CELLS, DEP, DEPS, LINK, NEXT_DEP, NODE, START};
use primitive::slots::Slot;
use primitive::{slots, words};

// Words of a test's own memory: one for each node that tables may have.
pub const SEEN: usize = room::MOST_NODES as usize;

// The read links of the dependency list from the word w.
pub fn read_links(nodes: &[u64], links: &[u64], w: u64) -> u64
    ensures { result ≡ reads_from nodes.now links.now w }
{
    let slots = room::slot_room(links);
    let mut at = w;
    let mut count: u64 = 0;
    for _link in 0..slots {
        let Slot::At(x) = slots::open(at) else {
            return count;
        };
        if legal::readable(nodes, words::get(links, LINK, x, DEP)) {
            count += 1;
        }
        at = words::get(links, LINK, x, NEXT_DEP);
    }
    count
}

fn stamp_cell(cells: &[i64], seen: &mut [u64], v: u64, i: u64)
    ensures { seen.new ≡ stamp_cell cells.now seen.old v i }
{
    if let Some(m) = name_at(cells, i) {
        words::put(seen, m, v);
    }
}

// What the n cells from start on name has the stamp v. Past the end no cell names anything.
fn stamp_cells(cells: &[i64], seen: &mut [u64], v: u64, start: u64, n: u64)
    ensures { seen.new ≡ stamp_cells cells.now seen.old v start n }
{
    let end = room::cell_room(cells).min(start.saturating_add(n));
    for i in start..end {
        stamp_cell(cells, seen, v, i);
    }
}

// The same of the formula of node n, if it has one.
fn stamp_node(nodes: &[u64], cells: &[i64], seen: &mut [u64], n: u64, v: u64)
    ensures { seen.new ≡ stamp_node nodes.now cells.now seen.old n v }
{
    let start = words::get(nodes, NODE, n, START);
    let count = words::get(nodes, NODE, n, CELLS);
    if depends::reads(nodes, n) {
        stamp_cells(cells, seen, v, start, count);
    }
}

// Whether a link to node d is no read link, or d has the stamp.
#[tactic(auto, unfolding(resting::specs::Named::stamped))]
fn stamped(nodes: &[u64], seen: &[u64], v: u64, d: u64) -> bool
    ensures { result ≡ stamped nodes.now seen.now v d }
{
    !legal::readable(nodes, d) || words::at(seen, d) == v
}

// The same of each link of the list from the word w on.
fn links_stamped(nodes: &[u64], links: &[u64], seen: &[u64], v: u64, w: u64) -> bool
    ensures { result ≡ links_stamped nodes.now links.now seen.now v (slot_room links.now) w }
{
    depends::every_link(links, w, |d| stamped(nodes, seen, v, d))
}

// Node n stamps n + 1, which is new, so that no stamp is ever cleared.
fn all_named(nodes: &[u64], links: &[u64], cells: &[i64], seen: &mut [u64]) -> bool
    ensures { result ≡ named_from nodes.now links.now cells.now seen.old 0 (counted_in nodes.now) }
{
    let count = room::counted(nodes);
    for n in 0..count {
        stamp_node(nodes, cells, seen, n, n + 1);
        let w = words::get(nodes, NODE, n, DEPS);
        if !links_stamped(nodes, links, seen, n + 1, w) {
            return false;
        }
    }
    true
}

#[tactic(auto, unfolding(resting::specs::Named::named_in, resting::specs::Blank::blank))]
pub fn named(nodes: &[u64], links: &[u64], cells: &[i64]) -> bool
    ensures { result ≡ named_in nodes.now links.now cells.now }
{
    let mut seen = [0u64; SEEN];
    all_named(nodes, links, cells, &mut seen)
}
