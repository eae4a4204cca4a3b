// The formula of a node: where its cells lie, and what they may name.
ghost use Rattle.std.specs.Prelude.{◌≡◌};
ghost use Rattle.telling.specs.Formulas.{own_cells, reads_lower, formula_in};

use crate::rank;
use formula::cells::{cell_count, name_at};
use formula::legal::legal;
use formula::scans::read_cells;
use primitive::rows::{CELLS, NODE, READS, START};
use primitive::words;

// The cells of node n's formula; none where they do not lie inside the cells that are lent.
pub fn own_cells<'a>(nodes: &[u64], cells: &'a [i64], n: u64) -> &'a [i64]
    ensures { result.now ≡ own_cells nodes.now cells.now n }
{
    let start = words::get(nodes, NODE, n, START);
    let count = words::get(nodes, NODE, n, CELLS);
    let room = cell_count(cells);
    if count > room || start > room - count {
        return &cells[..0];
    }
    let from = (start * 2) as usize;
    let to = ((start + count) * 2) as usize;
    &cells[from..to]
}

// Whether every read cell names a node of lower rank than n.
fn reads_lower(cells: &[i64], n: u64) -> bool
    ensures { result ≡ reads_lower cells.now n }
{
    (0..cell_count(cells))
        .filter_map(|i| name_at(cells, i))
        .all(|m| rank::lower(m, n))
}

// Whether the cells are a formula that node n may have, with the number of read cells that its row says.
#[tactic(auto, unfolding(telling::specs::Formulas::formula_in))]
pub fn formula(nodes: &[u64], cells: &[i64], n: u64) -> bool
    ensures { result ≡ formula_in nodes.now cells.now n }
{
    legal(nodes, cells)
        && reads_lower(cells, n)
        && words::get(nodes, NODE, n, READS) == read_cells(cells)
}
