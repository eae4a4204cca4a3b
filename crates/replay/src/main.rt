#![tactic(auto)]

// Holds stored answers of the oracle against the engine, with no Rust at hand. Arguments: five words a pack, its name and its capacities in nodes,
// links, cells and log rows. The file NAME.in has the scripts and NAME.out the answers, as oracle/README.md sets many scripts out.
mod held;
mod listed;

ghost use Rattle.std.specs.Prelude.{◌-◌, ◌≤◌};

use held::{Tally, is_kept};
use host::sizes;
use listed::{Capacities, open, tell};
use operations::emptying::empty;
use packs::Place;
use script::packed::{Step, play};
use std::env::Env;
use std::io::Read;
use std::ops::Range;
use std::rt;
use stream::{Source, argument_count};

// Nothing says that a file ends, so the turns are counted. The tables are lent one by one, as to `play`.
fn session<R: Read + Drop>(
    rt: &impl Eprint,
    nodes: &mut [u64],
    links: &mut [u64],
    values: &mut [i64],
    cells: &mut [i64],
    log: &mut [i64],
    scripts: R,
    answers: R,
) -> Tally {
    let mut words = [0i64; 2048];
    let mut out = [0u8; 32768];
    let mut buf = [0u8; 16384];
    let mut kept_buf = [0u8; 16384];
    let mut input = Source::new(scripts, &mut buf);
    let mut kept = Source::new(answers, &mut kept_buf);
    let mut place = Place::Open;
    let mut tally = Tally::new();
    empty(nodes, links, values, cells);
    for _ in 0..u64::MAX {
        let what = play(
            nodes,
            links,
            values,
            cells,
            log,
            &mut words,
            &mut out,
            input.unread(),
            input.over,
            place,
        );
        tally.same = is_kept(rt, &mut kept, &out, what);
        tally.count(what);
        if !tally.same {
            return tally;
        }
        let (used, then) = match what {
            Step::Read => {
                input.fill(rt);
                (0, place)
            }
            Step::Answered { used, .. } | Step::Next(used) => (used, Place::Open),
            Step::Ended(_) => (0, Place::InLine),
            Step::Within(used) => (used, Place::InLine),
            Step::Past(used) => (used, Place::AtLine),
            Step::Stop => return tally,
        };
        input.advance(used);
        place = then;
    }
    tally
}

// The first n words of a table, or all where it has no more.
fn cut<T>(table: &mut [T], n: u64) -> &mut [T] {
    let n = table.len().min(n as usize);
    &mut table[..n]
}

// Room for 256 nodes, 1,024 links, 2,048 cells and 256 log rows, as the program has, cut to a pack's capacities. Of a pack that asks for more
// nothing is compared.
fn run<R: Read + Drop>(rt: &impl Eprint, chosen: Capacities, scripts: R, answers: R) -> Tally {
    let room = Capacities {
        nodes: 256,
        links: 1024,
        cells: 2048,
        rows: 256,
    };
    if !chosen.fit(room) {
        return Tally::new();
    }
    let mut nodes = [0u64; 4112];
    let mut links = [0u64; 8200];
    let mut values = [0i64; 1024];
    let mut cells = [0i64; 4096];
    let mut log = [0i64; 512];
    session(
        rt,
        cut(&mut nodes, sizes::simmer_node_words(chosen.nodes)),
        cut(&mut links, sizes::simmer_link_words(chosen.links)),
        cut(&mut values, sizes::simmer_value_words(chosen.nodes)),
        cut(&mut cells, sizes::simmer_cell_words(chosen.cells)),
        cut(&mut log, sizes::simmer_log_words(chosen.rows)),
        scripts,
        answers,
    )
}

fn pack<R: rt::Files + Env + Print + Eprint>(rt: &R, name: usize, numbers: [usize; 4]) {
    let scripts = open(rt, name, b".in");
    let answers = open(rt, name, b".out");
    if let (Some(scripts), Some(answers)) = (scripts, answers) {
        let chosen = Capacities::spelled(rt, numbers).unwrap_or(Capacities::none());
        tell(rt, name, run(rt, chosen, scripts, answers));
    }
}

fn four(places: &mut Range<usize>) -> Option<[usize; 4]>
    ensures { places.new.end - places.new.start ≤ places.old.end - places.old.start }
{
    Some([
        places.next()?,
        places.next()?,
        places.next()?,
        places.next()?,
    ])
}

fn main(rt: HostRuntime) {
    let mut places = 1..argument_count(&rt);
    while let Some(name) = places.next() {
        let Some(numbers) = four(&mut places) else {
            let _ = rt.eprintln("usage: replay NAME NODES LINKS CELLS ROWS ..");
            return;
        };
        pack(&rt, name, numbers);
    }
}
