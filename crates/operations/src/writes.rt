// Writes to a signal. After signal_set_oper, signal_set_with_oper and _signal_set_oper_core of lib.rs.
ghost use Rattle.std.specs.Prelude.{◌≡◌};
ghost use Rattle.reading.specs.Tables.{state};
ghost use Rattle.operating.specs.Log.{ran_to};
ghost use Rattle.operating.specs.Writes.{written, added};

use crate::batches::depth;
use crate::runs::flush;
use flags::Flags;
use marks::nodes::set_flags;
use marks::walks::propagate;
use primitive::rows::{NODE, SUBS};
use primitive::slots::Slot;
use primitive::{slots, words};
use reads::places;
use values::Value;

// Nothing happens where v is the pending value already. Else the signal is stale, what depends on it is told, and outside of batches a flush follows.
pub fn set(
    nodes: &mut [u64],
    links: &mut [u64],
    values: &mut [i64],
    cells: &[i64],
    log: &mut [i64],
    n: u64,
    v: Value,
) -> u64
    ensures { ran_to (state nodes.new links.new values.new) log.new result ≡ written cells.now (state nodes.old links.old values.old) log.old n v }
{
    if places::pending(values, n) == v {
        return 0;
    }
    places::keep_pending(values, n, v);
    set_flags(nodes, n, Flags::STALE);
    let Slot::At(s) = slots::open(words::get(nodes, NODE, n, SUBS)) else {
        return 0;
    };
    propagate(nodes, links, s);
    if depth(nodes) == 0 {
        flush(nodes, links, values, cells, log)
    } else {
        0
    }
}

// The current value + d, not the pending one.
pub fn add(
    nodes: &mut [u64],
    links: &mut [u64],
    values: &mut [i64],
    cells: &[i64],
    log: &mut [i64],
    n: u64,
    d: Value,
) -> u64
    ensures { ran_to (state nodes.new links.new values.new) log.new result ≡ added cells.now (state nodes.old links.old values.old) log.old n d }
{
    let sum = places::current(values, n).sum(d);
    set(nodes, links, values, cells, log, n, sum)
}
