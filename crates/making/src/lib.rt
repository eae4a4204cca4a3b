#![tactic(auto)]

// The making of nodes. A new node has the next number, and its formula the next cells. After the constructors of Signal, Computed, Effect and EffectScope in lib.rs.
ghost use Rattle.std.specs.Prelude.{◌≡◌, List, ℕ, ◌+◌, ℤ, set};
ghost use Rattle.reading.specs.Tables.{state};
ghost use Rattle.operating.specs.Log.{ran_to};
ghost use Rattle.operating.specs.Making.{has_room, described, valued, laid, made, make, owned, new_signal, new_computed, new_scope, started, new_effect};

use counts::depths::depth_under;
use flags::Flags;
use formula::scans::{height, read_cells};
use links::link::link;
use operating::making::Sort;
use operations::log::write_row;
use operations::runs::end_run;
use primitive::kinds::Kind;
use primitive::rows::{
    CELLS, COUNT, DEPS, DEPS_TAIL, FLAGS, GONE, KIND, LEVEL, NODE, OWNER, READS, START, SUBS,
    SUBS_TAIL, USED,
};
use primitive::slots::Slot;
use primitive::{slots, words};
use reads::places;
use reads::read::evaluate;
use values::Value;
use version::Version;

// Whether there is a row for one more node, and room for this many cells.
#[tactic(auto, unfolding(operating::specs::Making::has_room))]
fn has_room(nodes: &[u64], cells: &[i64], size: u64) -> bool
    ensures { result ≡ has_room nodes.now cells.now size }
{
    let rows = (nodes.len() / 16) as u64;
    let room = (cells.len() / 2) as u64;
    let n = words::at(nodes, COUNT);
    n < rows && n + 1 < rows && size <= room && words::at(nodes, USED) <= room - size
}

// The words of node n: live, with no links. Its word in the queue's column is not its own.
fn describe(nodes: &mut [u64], n: u64, sort: Sort, formula: &[i64])
    ensures { nodes.new ≡ described nodes.old n sort formula.now }
{
    let start = words::at(nodes, USED);
    words::store(nodes, NODE, n, FLAGS, u64::from(sort.flags));
    words::store(nodes, NODE, n, KIND, sort.kind.word());
    words::store(nodes, NODE, n, GONE, 0);
    words::store(nodes, NODE, n, DEPS, 0);
    words::store(nodes, NODE, n, DEPS_TAIL, 0);
    words::store(nodes, NODE, n, SUBS, 0);
    words::store(nodes, NODE, n, SUBS_TAIL, 0);
    words::store(nodes, NODE, n, START, start);
    words::store(nodes, NODE, n, CELLS, (formula.len() / 2) as u64);
    words::store(nodes, NODE, n, READS, read_cells(formula));
    words::store(nodes, NODE, n, OWNER, sort.owner);
    words::store(nodes, NODE, n, LEVEL, sort.level);
}

// Both values of node n.
#[tactic(auto, unfolding(operating::specs::Making::valued))]
fn give(values: &mut [i64], n: u64, v: Value)
    ensures { values.new ≡ valued values.old n v }
{
    places::keep_current(values, n, v);
    places::keep_pending(values, n, v);
}

// Word at + i. A store past the end does nothing, and the sum cannot wrap below it.
fn set_word(cells: &mut [i64], at: usize, i: usize, w: i64)
    ensures { cells.new ≡ set cells.old (at + i) w }
{
    if at < cells.len() && i < cells.len() - at {
        cells[at + i] = w;
    }
}

// The formula's words from word `at` on.
#[tactic(auto, unfolding(operating::specs::Making::laid))]
fn lay(cells: &mut [i64], at: usize, formula: &[i64])
    ensures { cells.new ≡ laid cells.old at formula.now }
{
    for (i, w) in formula.iter().enumerate() {
        set_word(cells, at, i, *w);
    }
}

// One function makes every node; the answer is its number. Tables that have no room for it stay as they are.
fn make(
    nodes: &mut [u64],
    values: &mut [i64],
    cells: &mut [i64],
    sort: Sort,
    formula: &[i64],
    v: Value,
) -> u64
    ensures { (l : List ℕ) → made result (state nodes.new l values.new) cells.new ≡ make (state nodes.old l values.old) cells.old sort formula.now v }
{
    let n = words::at(nodes, COUNT);
    let size = (formula.len() / 2) as u64;
    if has_room(nodes, cells, size) {
        let used = words::at(nodes, USED);
        let after = used + size;
        describe(nodes, n, sort, formula);
        give(values, n, v);
        lay(cells, used as usize * 2, formula);
        words::put(nodes, COUNT, n + 1);
        words::put(nodes, USED, after);
    }
    n
}

// The owner depends on node n.
#[tactic(auto, unfolding(operating::specs::Making::owned))]
fn own(nodes: &mut [u64], links: &mut [u64], n: u64, owner: u64)
    ensures { (v : List ℤ) → state nodes.new links.new v ≡ owned (state nodes.old links.old v) n owner }
{
    let Slot::At(o) = slots::open(owner) else {
        return;
    };
    link(nodes, links, n, o, Version::default());
}

// A signal whose two values are v. It takes no cells.
pub fn new_signal(nodes: &mut [u64], values: &mut [i64], cells: &mut [i64], v: Value) -> u64
    ensures { (l : List ℕ) → made result (state nodes.new l values.new) cells.new ≡ new_signal (state nodes.old l values.old) cells.old v }
{
    let sort = Sort {
        kind: Kind::Signal,
        flags: Flags::MUTABLE,
        owner: 0,
        level: 0,
    };
    make(nodes, values, cells, sort, &[0i64; 0], v)
}

// A computed is not evaluated before something reads it.
pub fn new_computed(
    nodes: &mut [u64],
    values: &mut [i64],
    cells: &mut [i64],
    formula: &[i64],
) -> u64
    ensures { (l : List ℕ) → made result (state nodes.new l values.new) cells.new ≡ new_computed (state nodes.old l values.old) cells.old formula.now }
{
    let sort = Sort {
        kind: Kind::Computed,
        flags: Flags::NONE,
        owner: 0,
        level: height(nodes, formula),
    };
    make(nodes, values, cells, sort, formula, Value::of(0))
}

pub fn new_scope(
    nodes: &mut [u64],
    links: &mut [u64],
    values: &mut [i64],
    cells: &mut [i64],
    owner: u64,
) -> u64
    ensures { made result (state nodes.new links.new values.new) cells.new ≡ new_scope (state nodes.old links.old values.old) cells.old owner }
{
    let sort = Sort {
        kind: Kind::Scope,
        flags: Flags::NONE,
        owner,
        level: depth_under(nodes, owner),
    };
    let n = make(nodes, values, cells, sort, &[0i64; 0], Value::of(0));
    own(nodes, links, n, owner);
    n
}

// The number of a new effect, and how many rows its run wrote.
#[derive(Clone, Copy)]
pub struct Started {
    pub number: u64,
    pub rows: u64,
}

// An effect runs at once, in the cycle at hand.
pub fn new_effect(
    nodes: &mut [u64],
    links: &mut [u64],
    values: &mut [i64],
    cells: &mut [i64],
    log: &mut [i64],
    owner: u64,
    formula: &[i64],
) -> Started
    ensures { started result.number (ran_to (state nodes.new links.new values.new) log.new result.rows) cells.new ≡ new_effect (state nodes.old links.old values.old) cells.old log.old owner formula.now }
{
    let sort = Sort {
        kind: Kind::Effect,
        flags: Flags::RUNNING,
        owner,
        level: depth_under(nodes, owner),
    };
    let n = make(nodes, values, cells, sort, formula, Value::of(0));
    own(nodes, links, n, owner);
    let value = evaluate(nodes, links, values, cells, n);
    end_run(nodes, n);
    let rows = write_row(log, n, value);
    Started { number: n, rows }
}
