// One cell: a code and an operand, and the table of codes.
ghost use Rattle.std.specs.Prelude.{◌≡◌, ◌/◌, length};
ghost use Rattle.trees.specs.Cells.{natural_of, cell_of, bare_of, read_of, arity_of, name_of, cell_at, end_of};

use primitive::words;
use trees::cells::{Cell, Op};

// The library's conversion, under the name that definitions and callers' proofs have for it.
pub fn natural(k: i64) -> Option<u64>
    ensures { result ≡ natural_of k }
{
    u64::try_from(k).ok()
}

// A cell that carries operand 0.
#[tactic(auto, unfolding(trees::specs::Cells::bare_of))]
fn bare(operand: i64, c: Cell) -> Cell
    ensures { result ≡ bare_of operand c }
{
    if operand == 0 { c } else { Cell::Bad }
}

#[tactic(auto, unfolding(trees::specs::Cells::read_of))]
fn read(operand: i64) -> Cell
    ensures { result ≡ read_of operand }
{
    natural(operand).map_or(Cell::Bad, Cell::Read)
}

// Codes are numbers here alone: behind it a cell is a Cell.
#[tactic(auto, unfolding(trees::specs::Cells::cell_of, trees::specs::Cells::codes))]
pub fn cell_of(code: i64, operand: i64) -> Cell
    ensures { result ≡ cell_of code operand }
{
    match code {
        1 => Cell::Constant(operand),
        2 => read(operand),
        3 => bare(operand, Cell::Two(Op::Sum)),
        4 => bare(operand, Cell::Two(Op::Difference)),
        5 => bare(operand, Cell::Two(Op::Minimum)),
        6 => bare(operand, Cell::Two(Op::Maximum)),
        7 => bare(operand, Cell::Two(Op::Less)),
        8 => bare(operand, Cell::Choose),
        _ => Cell::Bad,
    }
}

// How many arguments a cell takes.
#[tactic(auto, unfolding(trees::specs::Cells::arity_of))]
pub fn arity(c: Cell) -> Option<u64>
    ensures { result ≡ arity_of c }
{
    match c {
        Cell::Constant(_) | Cell::Read(_) => Some(0),
        Cell::Two(_) => Some(2),
        Cell::Choose => Some(3),
        Cell::Bad => None,
    }
}

// The node that a cell names: a read cell does, no other.
#[tactic(auto, unfolding(trees::specs::Cells::name_of))]
pub fn name(c: Cell) -> Option<u64>
    ensures { result ≡ name_of c }
{
    match c {
        Cell::Read(n) => Some(n),
        _ => None,
    }
}

// How many whole cells there are.
pub fn cell_count(cells: &[i64]) -> u64
    ensures { result ≡ length cells.now / 2 }
{
    cells.len() as u64 / 2
}

// Cell i of a list of cells; past the end it is bad.
#[tactic(auto, unfolding(trees::specs::Cells::cell_at))]
pub fn cell_at(cells: &[i64], i: u64) -> Cell
    ensures { result ≡ cell_at cells.now i }
{
    if i < cell_count(cells) {
        cell_of(words::at(cells, i * 2), words::at(cells, i * 2 + 1))
    } else {
        Cell::Bad
    }
}

// The node that cell i names.
pub fn name_at(cells: &[i64], i: u64) -> Option<u64>
    ensures { result ≡ name_of (cell_at cells.now i) }
{
    name(cell_at(cells, i))
}

// Where the expression that starts at cell i ends: one pass, with a single count of the arguments still owed. It stops at a bad cell.
// A while: the cells tell on the way how many they are, so no range is at hand for a for.
pub fn end(cells: &[i64], i: u64) -> u64
    ensures { result ≡ end_of cells.now i }
{
    let mut at = i;
    let mut owed: u64 = 1;
    while 0 < owed {
        let Some(n) = arity(cell_at(cells, at)) else {
            return at;
        };
        owed = owed - 1 + n;
        at += 1;
    }
    at
}
