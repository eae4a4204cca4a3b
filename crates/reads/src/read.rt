// Reads, for callers: each with what it leaves in every word.
ghost use Rattle.std.specs.Prelude.{◌≡◌};
ghost use Rattle.reading.specs.Tables.{state, told, got};
ghost use Rattle.reading.specs.Read.{read_of, checked, evaluated_for};

use crate::places::current;
use crate::ring;
use formula::legal::MOST_NESTING;
use primitive::rows::{NODE, START};
use primitive::words;
use values::Value;

// A read that no node makes: its value, up to date.
pub fn read(
    nodes: &mut [u64],
    links: &mut [u64],
    values: &mut [i64],
    cells: &[i64],
    n: u64,
) -> Value
    ensures { got result (state nodes.new links.new values.new) ≡ read_of cells.now (state nodes.old links.old values.old) n }
{
    ring::refresh(nodes, links, values, cells, n);
    current(values, n)
}

// Whether a dependency of node n has changed. They are asked in order, and a DIRTY mark found on n before one is asked is an answer too.
pub fn check_dirty(
    nodes: &mut [u64],
    links: &mut [u64],
    values: &mut [i64],
    cells: &[i64],
    n: u64,
) -> bool
    ensures { told result (state nodes.new links.new values.new) ≡ checked cells.now (state nodes.old links.old values.old) n }
{
    ring::check_dirty(nodes, links, values, cells, n)
}

// What the formula of node n is worth to it. It then depends on what was read.
pub fn evaluate(
    nodes: &mut [u64],
    links: &mut [u64],
    values: &mut [i64],
    cells: &[i64],
    n: u64,
) -> Value
    ensures { got result (state nodes.new links.new values.new) ≡ evaluated_for cells.now (state nodes.old links.old values.old) n }
{
    let at = words::get(nodes, NODE, n, START);
    ring::evaluate(nodes, links, values, cells, n, at, MOST_NESTING).value
}
