#![tactic(auto)]

// Reads pairs of lines from standard input and answers each on standard output as soon as it is there.
ghost use Rattle.std.specs.Prelude.{◌≡◌};
ghost use Rattle.script.specs.Turns.{tables};
ghost use Rattle.simmer.specs.Steps.{Stepped, lent};

use operations::emptying::empty;
use script::turn;
use script::turns::Turn;
use std::io;
use std::io::Read;
use stream::{Source, send};

// One pair, or one more read; whether the run goes on. The tables are lent one by one, as to `turn`.
fn step<R: Read>(
    rt: &(impl Print + Eprint),
    nodes: &mut [u64],
    links: &mut [u64],
    values: &mut [i64],
    cells: &mut [i64],
    log: &mut [i64],
    words: &mut [i64],
    out: &mut [u8],
    input: &mut Source<R>,
) -> bool
    ensures same { input.new.buf.ghost_name ≡ input.old.buf.ghost_name }
    ensures stepped { Stepped (lent (tables nodes.old links.old values.old cells.old log.old) words.old out.old input.old.buf.now input.old.at input.old.end input.old.over) (lent (tables nodes.new links.new values.new cells.new log.new) words.new out.new input.new.buf.now input.new.at input.new.end input.new.over) result }
{
    if input.buf.len() < input.end || input.end < input.at {
        return false;
    }
    let what = turn(
        nodes,
        links,
        values,
        cells,
        log,
        words,
        out,
        input.unread(),
        input.over,
    );
    match what {
        Turn::More => {
            input.fill(rt);
            true
        }
        Turn::Answered { used, bytes } => {
            input.advance(used);
            send(rt, &mut io::writer(rt), out, bytes)
        }
        Turn::Ended(bytes) => {
            send(rt, &mut io::writer(rt), out, bytes);
            false
        }
    }
}

// 256 nodes, 1,024 links, 2,048 cells and 256 log rows; nothing says that the input ends, so the turns are counted.
fn main(rt: HostRuntime) {
    let mut nodes = [0u64; 4112];
    let mut links = [0u64; 8200];
    let mut values = [0i64; 1024];
    let mut cells = [0i64; 4096];
    let mut log = [0i64; 512];
    let mut words = [0i64; 2048];
    let mut out = [0u8; 32768];
    let mut buf = [0u8; 16384];
    empty(&mut nodes, &mut links, &mut values, &mut cells);
    let mut input = Source::new(rt.reader(), &mut buf);
    for _ in 0..u64::MAX {
        if !step(
            &rt,
            &mut nodes,
            &mut links,
            &mut values,
            &mut cells,
            &mut log,
            &mut words,
            &mut out,
            &mut input,
        ) {
            return;
        }
    }
}
