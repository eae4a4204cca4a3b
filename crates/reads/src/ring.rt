// The ring of calls: read, dirty check, update and evaluation. Each call that comes back to a kind of work goes to a node of lower rank, or to a shallower argument. The
// contracts say what is left for every bound on the ranks; the file read.rt says it plainly.
ghost use Rattle.std.specs.Prelude.{◌≡◌, ℕ, ◌≤◌, ◌<◌, pos};
ghost use Rattle.values.specs.Values.{value};
ghost use Rattle.trees.specs.Trees.{apply};
ghost use Rattle.reading.specs.Tables.{state, told, got, evaluated};
ghost use Rattle.reading.specs.Ring.{Enough, Below, read_by, two_by, choose_by, evaluated_by, updated_computed_by, first_by, updated_by, settled_by, pending_by, dependency_by, dirty_by, checked_by, renewed_by, surely_by, refreshed_computed_by, refreshed_by};

use crate::computeds::{begin, begin_first, finish, finish_first};
use crate::cycle::cycle;
use crate::places::current;
use crate::rank::rank;
use crate::signals::{refresh_signal, update_signal};
use crate::wakes::{wake, wake_others};
use flags::Flags;
use formula::cells::{cell_at, end};
use formula::legal::MOST_NESTING;
use links::link::link;
use marks::nodes::{flags, set_flags};
use primitive::kinds::Kind;
use primitive::rows::{DEP, DEPS, KIND, LINK, NEXT_DEP, NODE, START};
use primitive::slots::Slot;
use primitive::{slots, words};
use trees::cells::{Cell, Op};
use values::Value;

// What an expression is worth, and the cell after it.
#[derive(Clone, Copy)]
pub struct Worked {
    pub value: Value,
    pub next: u64,
}

#[tactic(auto, unfolding(trees::specs::Trees::apply))]
fn apply(op: Op, a: Value, b: Value) -> Value
    ensures { result ≡ apply op a b }
{
    match op {
        Op::Sum => a.sum(b),
        Op::Difference => a.difference(b),
        Op::Minimum => a.minimum(b),
        Op::Maximum => a.maximum(b),
        Op::Less => a.less(b),
    }
}

// What is no expression is worth 0, and takes no cell.
fn nothing(at: u64) -> Worked
    ensures value_value { result.value ≡ value (pos 0) }
    ensures next_value { result.next ≡ at }
{
    Worked {
        value: Value::of(0),
        next: at,
    }
}

// What the expression at a cell is worth to node n. Nothing nests deeper than `depth`, and no cell past a bad one is asked for.
#[cycle(reading)]
pub fn evaluate(
    nodes: &mut [u64],
    links: &mut [u64],
    values: &mut [i64],
    cells: &[i64],
    n: u64,
    at: u64,
    depth: u64,
) -> Worked
    ensures { Enough cells.now n (λ b. evaluated_by cells.now b n depth (state nodes.old links.old values.old) at) (evaluated result.value result.next (state nodes.new links.new values.new)) }
{
    if depth == 0 {
        return nothing(at);
    }
    match cell_at(cells, at) {
        Cell::Constant(k) => Worked {
            value: Value::of(k),
            next: at + 1,
        },
        Cell::Read(m) => Worked {
            value: read_for(nodes, links, values, cells, n, m),
            next: at + 1,
        },
        Cell::Two(op) => evaluate_two(nodes, links, values, cells, n, at + 1, depth - 1, op),
        Cell::Choose => evaluate_choose(nodes, links, values, cells, n, at + 1, depth - 1),
        Cell::Bad => nothing(at),
    }
}

// The read of node m by node n, which then depends on it. A node that is not of lower rank is not read.
#[cycle(reading)]
fn read_for(
    nodes: &mut [u64],
    links: &mut [u64],
    values: &mut [i64],
    cells: &[i64],
    n: u64,
    m: u64,
) -> Value
    ensures { Enough cells.now n (λ b. read_by b n (state nodes.old links.old values.old) m) (got result (state nodes.new links.new values.new)) }
{
    if rank(m) < rank(n) {
        refresh(nodes, links, values, cells, m);
        link(nodes, links, m, n, cycle(links));
        current(values, m)
    } else {
        Value::of(0)
    }
}

// Arguments go left to right.
#[cycle(reading)]
fn evaluate_two(
    nodes: &mut [u64],
    links: &mut [u64],
    values: &mut [i64],
    cells: &[i64],
    n: u64,
    at: u64,
    depth: u64,
    op: Op,
) -> Worked
    ensures { Enough cells.now n (λ b. two_by (evaluated_by cells.now b n depth) op (state nodes.old links.old values.old) at) (evaluated result.value result.next (state nodes.new links.new values.new)) }
{
    let a = evaluate(nodes, links, values, cells, n, at, depth);
    let b = evaluate(nodes, links, values, cells, n, a.next, depth);
    Worked {
        value: apply(op, a.value, b.value),
        next: b.next,
    }
}

// Only the branch that is taken is worked out.
#[cycle(reading)]
fn evaluate_choose(
    nodes: &mut [u64],
    links: &mut [u64],
    values: &mut [i64],
    cells: &[i64],
    n: u64,
    at: u64,
    depth: u64,
) -> Worked
    ensures { Enough cells.now n (λ b. choose_by cells.now (evaluated_by cells.now b n depth) (state nodes.old links.old values.old) at) (evaluated result.value result.next (state nodes.new links.new values.new)) }
{
    let c = evaluate(nodes, links, values, cells, n, at, depth);
    if c.value.is_zero() {
        return evaluate(nodes, links, values, cells, n, end(cells, c.next), depth);
    }
    let a = evaluate(nodes, links, values, cells, n, c.next, depth);
    Worked {
        value: a.value,
        next: end(cells, a.next),
    }
}

// The first evaluation of a computed.
#[cycle(reading)]
fn evaluate_first(nodes: &mut [u64], links: &mut [u64], values: &mut [i64], cells: &[i64], n: u64)
    ensures { Enough cells.now n (λ b. first_by cells.now b (state nodes.old links.old values.old) n) (state nodes.new links.new values.new) }
{
    let at = words::get(nodes, NODE, n, START);
    begin_first(nodes, n);
    let worked = evaluate(nodes, links, values, cells, n, at, MOST_NESTING);
    finish_first(nodes, values, n, worked.value);
}

// A computed is evaluated anew. The answer is whether its value changed.
#[cycle(reading)]
fn update_computed(
    nodes: &mut [u64],
    links: &mut [u64],
    values: &mut [i64],
    cells: &[i64],
    n: u64,
) -> bool
    ensures { Enough cells.now n (λ b. updated_computed_by cells.now b (state nodes.old links.old values.old) n) (told result (state nodes.new links.new values.new)) }
{
    let at = words::get(nodes, NODE, n, START);
    begin(nodes, links, n);
    let worked = evaluate(nodes, links, values, cells, n, at, MOST_NESTING);
    finish(nodes, links, values, n, worked.value)
}

// Only signals and computeds are updated; the Rust panics at any other node.
#[cycle(reading)]
fn update(nodes: &mut [u64], links: &mut [u64], values: &mut [i64], cells: &[i64], n: u64) -> bool
    ensures { Enough cells.now n (λ b. updated_by cells.now b (state nodes.old links.old values.old) n) (told result (state nodes.new links.new values.new)) }
{
    match Kind::of_word(words::get(nodes, NODE, n, KIND)) {
        Some(Kind::Signal) => update_signal(nodes, values, n),
        Some(Kind::Computed) => update_computed(nodes, links, values, cells, n),
        Some(Kind::Effect | Kind::Scope) | None => false,
    }
}

// Updates a dependency. A change wakes its other subscribers.
#[cycle(reading)]
fn settle(nodes: &mut [u64], links: &mut [u64], values: &mut [i64], cells: &[i64], m: u64) -> bool
    ensures { Enough cells.now m (λ b. settled_by cells.now b (state nodes.old links.old values.old) m) (told result (state nodes.new links.new values.new)) }
{
    let changed = update(nodes, links, values, cells, m);
    if changed {
        wake_others(nodes, links, m);
    }
    changed
}

// A pending dependency is updated where a dependency of its own has changed; else it is not pending any more.
#[cycle(reading)]
fn check_pending(
    nodes: &mut [u64],
    links: &mut [u64],
    values: &mut [i64],
    cells: &[i64],
    m: u64,
) -> bool
    ensures { Below cells.now m (λ b. pending_by cells.now b (state nodes.old links.old values.old) m) (told result (state nodes.new links.new values.new)) }
{
    if check_dirty(nodes, links, values, cells, m) {
        settle(nodes, links, values, cells, m)
    } else {
        set_flags(nodes, m, flags(nodes, m).clear(Flags::PENDING));
        false
    }
}

// Whether the dependency m has changed.
#[cycle(reading)]
fn check_dependency(
    nodes: &mut [u64],
    links: &mut [u64],
    values: &mut [i64],
    cells: &[i64],
    m: u64,
) -> bool
    ensures { Below cells.now m (λ b. dependency_by cells.now b (state nodes.old links.old values.old) m) (told result (state nodes.new links.new values.new)) }
{
    let flags = flags(nodes, m);
    if flags.has_all(Flags::STALE) {
        settle(nodes, links, values, cells, m)
    } else if flags.has_all(Flags::UNSURE) {
        check_pending(nodes, links, values, cells, m)
    } else {
        false
    }
}

// Whether node n is dirty already, or by its dependency m.
#[cycle(reading)]
fn dirty_by(
    nodes: &mut [u64],
    links: &mut [u64],
    values: &mut [i64],
    cells: &[i64],
    n: u64,
    m: u64,
) -> bool
    ensures { Enough cells.now n (λ b. dirty_by cells.now b (state nodes.old links.old values.old) n m) (told result (state nodes.new links.new values.new)) }
{
    flags(nodes, n).has(Flags::DIRTY)
        || rank(m) < rank(n) && check_dependency(nodes, links, values, cells, m)
}

// Whether a dependency of node n has changed: they are asked in order, up to the first that has. The words of a link are read before a call that may change the tables.
#[cycle(reading)]
pub fn check_dirty(
    nodes: &mut [u64],
    links: &mut [u64],
    values: &mut [i64],
    cells: &[i64],
    n: u64,
) -> bool
    ensures { Enough cells.now n (λ b. checked_by cells.now b (state nodes.old links.old values.old) n) (told result (state nodes.new links.new values.new)) }
{
    let mut link = words::get(nodes, NODE, n, DEPS);
    for _ in 0..links.len() / 8 {
        let Slot::At(s) = slots::open(link) else {
            return false;
        };
        let m = words::get(links, LINK, s, DEP);
        link = words::get(links, LINK, s, NEXT_DEP);
        if dirty_by(nodes, links, values, cells, n, m) {
            return true;
        }
    }
    false
}

// A computed is evaluated anew. A change wakes its subscribers.
#[cycle(reading)]
fn renew(nodes: &mut [u64], links: &mut [u64], values: &mut [i64], cells: &[i64], n: u64)
    ensures { Enough cells.now n (λ b. renewed_by cells.now b (state nodes.old links.old values.old) n) (state nodes.new links.new values.new) }
{
    if update_computed(nodes, links, values, cells, n) {
        wake(nodes, links, n);
    }
}

// A pending computed of these flags is evaluated anew where a dependency has changed; else it is not pending any more.
#[cycle(reading)]
fn refresh_pending(
    nodes: &mut [u64],
    links: &mut [u64],
    values: &mut [i64],
    cells: &[i64],
    n: u64,
    flags: Flags,
)
    ensures { Enough cells.now n (λ b. surely_by cells.now b (state nodes.old links.old values.old) n flags.bits) (state nodes.new links.new values.new) }
{
    if check_dirty(nodes, links, values, cells, n) {
        renew(nodes, links, values, cells, n);
    } else {
        set_flags(nodes, n, flags.clear(Flags::PENDING));
    }
}

// The first half of computed_oper.
#[cycle(reading)]
fn refresh_computed(nodes: &mut [u64], links: &mut [u64], values: &mut [i64], cells: &[i64], n: u64)
    ensures { Enough cells.now n (λ b. refreshed_computed_by cells.now b (state nodes.old links.old values.old) n) (state nodes.new links.new values.new) }
{
    let flags = flags(nodes, n);
    if flags.has(Flags::DIRTY) {
        renew(nodes, links, values, cells, n);
    } else if flags.has(Flags::PENDING) {
        refresh_pending(nodes, links, values, cells, n, flags);
    } else if flags.is_zero() {
        evaluate_first(nodes, links, values, cells, n);
    }
}

// Brings the value of a signal or computed up to date.
#[cycle(reading)]
pub fn refresh(nodes: &mut [u64], links: &mut [u64], values: &mut [i64], cells: &[i64], n: u64)
    ensures { Enough cells.now n (λ b. refreshed_by cells.now b (state nodes.old links.old values.old) n) (state nodes.new links.new values.new) }
{
    match Kind::of_word(words::get(nodes, NODE, n, KIND)) {
        Some(Kind::Signal) => refresh_signal(nodes, links, values, n),
        Some(Kind::Computed) => refresh_computed(nodes, links, values, cells, n),
        Some(Kind::Effect | Kind::Scope) | None => {}
    }
}
