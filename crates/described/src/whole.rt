// The whole of what the tables say of nodes.
ghost use Rattle.std.specs.Prelude.{◌≡◌};
ghost use Rattle.telling.specs.Whole.{described_in};

use crate::nodes::every_node;
use counts::reserve::reserve;
use counts::room::{carry, cell_room, node_room, slot_room};
use primitive::rows::{COUNT, USED};
use primitive::words;

// The nodes are lent the cells in use only, so that no other cell decides.
#[tactic(auto, unfolding(telling::specs::Whole::described_in))]
pub fn described(nodes: &[u64], links: &[u64], values: &[i64], cells: &[i64]) -> bool
    ensures { result ≡ described_in nodes.now links.now values.now cells.now }
{
    let count = words::at(nodes, COUNT);
    let used = words::at(nodes, USED);
    carry(nodes, links, values, cells)
        && count <= node_room(nodes)
        && used <= cell_room(cells)
        && every_node(nodes, &cells[..(used * 2) as usize], count)
        && reserve(nodes) <= slot_room(links)
}
