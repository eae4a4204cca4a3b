// The capacities that the lengths of lent tables carry.
ghost use Rattle.std.specs.Prelude.{◌≡◌};
ghost use Rattle.counting.specs.Counts.{node_room, slot_room, cell_room, counted_in, within_most, carry_in};

use primitive::rows::COUNT;
use primitive::words;

// The greatest depth of batches.
pub const MOST_DEPTH: u64 = 64;

pub const MOST_NODES: u64 = 1024;

pub const MOST_SLOTS: u64 = 8192;

// Cells of all formulas together.
pub const MOST_CELL_ROOM: u64 = 8192;

// Rows after the header; none where there is no header row. One function for both tables is no plainer: each is a line.
pub fn node_room(nodes: &[u64]) -> u64
    ensures { result ≡ node_room nodes.now }
{
    (nodes.len() / 16).saturating_sub(1) as u64
}

pub fn slot_room(links: &[u64]) -> u64
    ensures { result ≡ slot_room links.now }
{
    (links.len() / 8).saturating_sub(1) as u64
}

pub fn cell_room(cells: &[i64]) -> u64
    ensures { result ≡ cell_room cells.now }
{
    (cells.len() / 2) as u64
}

// How many nodes a count goes over: those that the tables say there are, but no more than there are rows for.
#[tactic(auto, unfolding(counting::specs::Counts::counted_in))]
pub fn counted(nodes: &[u64]) -> u64
    ensures { result ≡ counted_in nodes.now }
{
    words::at(nodes, COUNT).min(node_room(nodes))
}

// Whether n is a capacity: 1 to `most`.
#[tactic(auto, unfolding(counting::specs::Counts::within_most))]
fn within(most: u64, n: u64) -> bool
    ensures { result ≡ within_most most n }
{
    n != 0 && n <= most
}

// Whether the four lengths carry capacities, with no words over and values for as many nodes as there are rows for.
#[tactic(auto, unfolding(counting::specs::Counts::carry_in, counting::specs::Counts::whole_rows, counting::specs::Counts::within_all))]
pub fn carry(nodes: &[u64], links: &[u64], values: &[i64], cells: &[i64]) -> bool
    ensures { result ≡ carry_in nodes.now links.now values.now cells.now }
{
    let room = node_room(nodes);
    nodes.len() % 16 == 0
        && links.len() % 8 == 0
        && cells.len() % 2 == 0
        && within(MOST_NODES, room)
        && within(MOST_SLOTS, slot_room(links))
        && within(MOST_CELL_ROOM, cell_room(cells))
        && values.len() as u64 == room * 4
}
