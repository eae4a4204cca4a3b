// Whether a list of cells is a formula: one expression tree in prefix order, within the limits.
ghost use Rattle.std.specs.Prelude.{◌≡◌};
ghost use Rattle.trees.specs.Legal.{readable_in, known_in, takes_in, one_at, legal_in};

use crate::cells::{arity, cell_at, name};
use primitive::kinds::Kind;
use primitive::rows::{COUNT, KIND, NODE};
use primitive::words;
use trees::cells::Cell;

pub const MOST_CELLS: usize = 64;

pub const MOST_NESTING: u64 = 16;

// Whether n is an existing signal or computed.
#[tactic(auto, unfolding(trees::specs::Legal::readable_in, trees::specs::Legal::read_kind))]
pub fn readable(nodes: &[u64], n: u64) -> bool
    ensures { result ≡ readable_in nodes.now n }
{
    n < words::at(nodes, COUNT)
        && matches!(
            Kind::of_word(words::get(nodes, NODE, n, KIND)),
            Some(Kind::Signal | Kind::Computed)
        )
}

// Whether the cell names nothing, or what can be read.
#[tactic(auto, unfolding(trees::specs::Legal::known_in))]
fn known(nodes: &[u64], c: Cell) -> bool
    ensures { result ≡ known_in nodes.now c }
{
    name(c).is_none_or(|n| readable(nodes, n))
}

// How many arguments the cell takes; none where it names what cannot be read.
#[tactic(auto, unfolding(trees::specs::Legal::takes_in))]
fn takes(nodes: &[u64], c: Cell) -> Option<u64>
    ensures { result ≡ takes_in nodes.now c }
{
    if known(nodes, c) { arity(c) } else { None }
}

// Where the one expression from cell i on ends, if it is of nesting at most `depth`.
fn one(nodes: &[u64], cells: &[i64], depth: u64, i: u64) -> Option<u64>
    ensures { result ≡ one_at nodes.now cells.now depth i }
{
    if depth == 0 {
        return None;
    }
    let arguments = takes(nodes, cell_at(cells, i))?;
    let mut at = i + 1;
    for _argument in 0..arguments {
        at = one(nodes, cells, depth - 1, at)?;
    }
    Some(at)
}

#[tactic(auto, unfolding(trees::specs::Legal::legal_in))]
pub fn legal(nodes: &[u64], cells: &[i64]) -> bool
    ensures { result ≡ legal_in nodes.now cells.now }
{
    let count = cells.len() / 2;
    cells.len() % 2 == 0
        && count <= MOST_CELLS
        && one(nodes, cells, MOST_NESTING, 0) == Some(count as u64)
}
