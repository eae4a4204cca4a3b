#![tactic(auto)]

// Answers scripts as `simmer` does and prints after each command the tables, as oracle/README.md sets it out; a line `%` begins another script.
// Arguments: --nodes N, --links N, --cells N, --rows N choose capacities, --plain leaves the tables out; --dump, the default, shows them.
// --many, which the oracle needs for more than one script, changes nothing here.
mod options;
mod view;

use host::sizes;
use operations::emptying::empty;
use options::{Options, from_arguments};
use packs::Place;
use script::packed::{Step, play};
use std::io;
use stream::{Source, send};
use view::View;

// Writes what a step has to say and the tables after a command; whether the run goes on.
fn told(rt: &(impl Print + Eprint), out: &[u8], what: Step, shown: Option<View>) -> bool {
    let mut to = io::writer(rt);
    match what {
        Step::Answered { bytes, .. } => {
            send(rt, &mut to, out, bytes)
                && match shown {
                    Some(view) => view.dump(rt),
                    None => true,
                }
        }
        Step::Ended(bytes) => send(rt, &mut to, out, bytes),
        Step::Next(_) => send(rt, &mut to, b"%\n", 2),
        Step::Read | Step::Within(_) | Step::Past(_) => true,
        Step::Stop => false,
    }
}

// Nothing says that the input ends, so the turns are counted. The tables are lent one by one, as to `play`.
fn session(
    rt: &(impl io::Input + Print + Eprint),
    nodes: &mut [u64],
    links: &mut [u64],
    values: &mut [i64],
    cells: &mut [i64],
    log: &mut [i64],
    tables: bool,
) {
    let mut words = [0i64; 2048];
    let mut out = [0u8; 32768];
    let mut buf = [0u8; 16384];
    let mut input = Source::new(rt.reader(), &mut buf);
    let mut place = Place::Open;
    empty(nodes, links, values, cells);
    for _ in 0..u64::MAX {
        let what = play(
            nodes,
            links,
            values,
            cells,
            log,
            &mut words,
            &mut out,
            input.unread(),
            input.over,
            place,
        );
        let shown = tables.then_some(View {
            nodes,
            links,
            values,
        });
        if !told(rt, &out, what, shown) {
            return;
        }
        let (used, then) = match what {
            Step::Read => {
                input.fill(rt);
                (0, place)
            }
            Step::Answered { used, .. } | Step::Next(used) => (used, Place::Open),
            Step::Ended(_) => (0, Place::InLine),
            Step::Within(used) => (used, Place::InLine),
            Step::Past(used) => (used, Place::AtLine),
            Step::Stop => return,
        };
        input.advance(used);
        place = then;
    }
}

// The first n words of a table, or all where it has no more.
fn cut<T>(table: &mut [T], n: u64) -> &mut [T] {
    let n = table.len().min(n as usize);
    &mut table[..n]
}

// Room for 1,024 nodes, 8,192 links, 8,192 cells and 1,024 log rows, cut to the chosen lengths.
fn run(rt: &(impl io::Input + Print + Eprint), chosen: Options) {
    let mut nodes = [0u64; 16400];
    let mut links = [0u64; 65544];
    let mut values = [0i64; 4096];
    let mut cells = [0i64; 16384];
    let mut log = [0i64; 2048];
    session(
        rt,
        cut(&mut nodes, sizes::simmer_node_words(chosen.nodes)),
        cut(&mut links, sizes::simmer_link_words(chosen.links)),
        cut(&mut values, sizes::simmer_value_words(chosen.nodes)),
        cut(&mut cells, sizes::simmer_cell_words(chosen.cells)),
        cut(&mut log, sizes::simmer_log_words(chosen.rows)),
        chosen.tables,
    );
}

fn main(rt: HostRuntime) {
    match from_arguments(&rt) {
        Some(chosen) => run(&rt, chosen),
        None => {
            let _ = rt.eprintln(
                "usage: trace [--nodes N] [--links N] [--cells N] [--rows N] [--many] [--plain]",
            );
        }
    }
}
