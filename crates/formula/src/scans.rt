// What a list of cells names: how many read cells it has, and its height.
ghost use Rattle.std.specs.Prelude.{◌≡◌, suc, min};
ghost use Rattle.trees.specs.Names.{read_cells, most_height, height_in, tallest_in};

use crate::cells::{cell_count, name_at};
use primitive::rows::{LEVEL, NODE};
use primitive::words;

pub const MOST_HEIGHT: u64 = 64;

// The number of read cells, those in branches never taken among them.
pub fn read_cells(cells: &[i64]) -> u64
    ensures { result ≡ read_cells cells.now }
{
    (0..cell_count(cells))
        .filter_map(|i| name_at(cells, i))
        .count() as u64
}

// The greatest height that the cells name, 0 if they name none.
fn tallest(nodes: &[u64], cells: &[i64]) -> u64
    ensures { result ≡ tallest_in nodes.now cells.now }
{
    (0..cell_count(cells))
        .filter_map(|i| name_at(cells, i))
        .map(|n| words::get(nodes, NODE, n, LEVEL))
        .max()
        .unwrap_or(0)
}

// The height of a computed with these cells; what is over the greatest allowed is one more than that.
#[tactic(auto, unfolding(trees::specs::Names::height_in))]
pub fn height(nodes: &[u64], cells: &[i64]) -> u64
    ensures { result ≡ min (suc most_height) (height_in nodes.now cells.now) }
{
    tallest(nodes, cells).min(MOST_HEIGHT) + 1
}
