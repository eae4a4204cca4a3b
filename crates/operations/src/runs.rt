// Runs of effects, and the flush that empties the queue. After run and flush of lib.rs.
ghost use Rattle.std.specs.Prelude.{◌≡◌, List, ℤ};
ghost use Rattle.reading.specs.Tables.{state, told, got};
ghost use Rattle.operating.specs.Log.{ran_to};
ghost use Rattle.operating.specs.Runs.{begun_run, ended_run, finished_run, reran, must_run, ran, flushed};

use crate::log::write_row;
use flags::Flags;
use links::unlink::purge_deps;
use marks::nodes::{flags, set_flags};
use primitive::rows::{DEPS_TAIL, NODE};
use primitive::words;
use reads::cycle::raise_cycle;
use reads::read::{check_dirty, evaluate};
use values::Value;

// A rerun is in a new cycle, and no dependency is reached yet.
#[tactic(auto, unfolding(operating::specs::Runs::begun_run))]
fn begin(nodes: &mut [u64], links: &mut [u64], e: u64)
    ensures { (v : List ℤ) → state nodes.new links.new v ≡ begun_run (state nodes.old links.old v) e }
{
    raise_cycle(links);
    words::store(nodes, NODE, e, DEPS_TAIL, 0);
    set_flags(nodes, e, Flags::RUNNING);
}

// The run of e is over; it watches.
#[tactic(auto, unfolding(operating::specs::Runs::ended_run))]
pub fn end_run(nodes: &mut [u64], e: u64)
    ensures { nodes.new ≡ ended_run nodes.old e }
{
    set_flags(nodes, e, flags(nodes, e).clear(Flags::RECURSED_CHECK));
}

// What was not reached in this run goes: links to what it read before, and everything that it owned.
#[tactic(auto, unfolding(operating::specs::Runs::finished_run))]
fn finish(nodes: &mut [u64], links: &mut [u64], e: u64)
    ensures { (v : List ℤ) → state nodes.new links.new v ≡ finished_run (state nodes.old links.old v) e }
{
    end_run(nodes, e);
    purge_deps(nodes, links, e);
}

// One more run of e, and the value of its formula.
#[tactic(auto, unfolding(operating::specs::Runs::reran))]
fn rerun(nodes: &mut [u64], links: &mut [u64], values: &mut [i64], cells: &[i64], e: u64) -> Value
    ensures { got result (state nodes.new links.new values.new) ≡ reran cells.now (state nodes.old links.old values.old) e }
{
    begin(nodes, links, e);
    let value = evaluate(nodes, links, values, cells, e);
    finish(nodes, links, e);
    value
}

// Whether e has to run: its reads decide. A gone effect has no flags, and does not.
fn must_run(nodes: &mut [u64], links: &mut [u64], values: &mut [i64], cells: &[i64], e: u64) -> bool
    ensures { told result (state nodes.new links.new values.new) ≡ must_run cells.now (state nodes.old links.old values.old) e }
{
    let flags = flags(nodes, e);
    flags.has(Flags::DIRTY)
        || flags.has(Flags::PENDING) && check_dirty(nodes, links, values, cells, e)
}

// An effect from the queue runs if it has to, and puts its row at the front of the log. The answer is how many rows that is.
pub fn run(
    nodes: &mut [u64],
    links: &mut [u64],
    values: &mut [i64],
    cells: &[i64],
    log: &mut [i64],
    e: u64,
) -> u64
    ensures { ran_to (state nodes.new links.new values.new) log.new result ≡ ran cells.now (state nodes.old links.old values.old) log.old e }
{
    if must_run(nodes, links, values, cells, e) {
        let value = rerun(nodes, links, values, cells, e);
        write_row(log, e, value)
    } else {
        set_flags(nodes, e, Flags::WATCHING);
        0
    }
}

// All that is queued, first to last, each lent the unwritten rest of the log. The answer is how many rows were written. A `while`: a run may queue more, so the end grows.
pub fn flush(
    nodes: &mut [u64],
    links: &mut [u64],
    values: &mut [i64],
    cells: &[i64],
    log: &mut [i64],
) -> u64
    ensures { ran_to (state nodes.new links.new values.new) log.new result ≡ flushed cells.now (state nodes.old links.old values.old) log.old }
{
    let mut i: u64 = 0;
    let mut rows: u64 = 0;
    while i < queue::length(nodes) {
        let e = queue::entry(nodes, i);
        let at = rows as usize * 2;
        rows += run(nodes, links, values, cells, &mut log[at..], e);
        i += 1;
    }
    queue::clear(nodes);
    rows
}
