#![tactic(auto)]

// Runs one command on tables that come with it, and prints every word after it. A block of standard input is six lengths in words (nodes,
// links, values, cells, log, command) and then the words, white space between. With the argument `empty` the tables are emptied instead.
mod read;
mod show;
mod word;

use engine::command::{Answer, command};
use operations::emptying::empty;
use read::{Sizes, Stop, Words};
use show::Page;
use std::env::Env;
use std::io;
use std::io::{Input, Read};
use stream::{Outlet, Source, argument, argument_count};

// What is done with a block.
#[derive(Clone, Copy, PartialEq, Eq, Debug)]
enum Task {
    Command,
    Emptying,
}

// Tables, their log and the words of a command.
#[derive(Drop)]
struct Tables<'a> {
    nodes: &'a mut [u64],
    links: &'a mut [u64],
    values: &'a mut [i64],
    cells: &'a mut [i64],
    log: &'a mut [i64],
    words: &'a [i64],
}

impl Tables<'_> {
    fn done(&mut self, task: Task) -> Answer {
        match task {
            Task::Command => Answer::from(command(
                self.nodes,
                self.links,
                self.values,
                self.cells,
                self.log,
                self.words,
            )),
            Task::Emptying => Answer {
                code: empty(self.nodes, self.links, self.values, self.cells),
                value: 0,
                runs: 0,
            },
        }
    }

    fn show(&self, rt: &(impl Print + Eprint), answer: Answer) -> Result<(), Stop> {
        let mut out = [0; 8192];
        let mut page = Page::new(rt, Outlet::new(io::writer(rt), &mut out));
        let whole = page
            .answer(answer)
            .and_then(|()| page.table("nodes=", self.nodes))
            .and_then(|()| page.table("links=", self.links))
            .and_then(|()| page.table("values=", self.values))
            .and_then(|()| page.table("cells=", self.cells))
            .and_then(|()| page.table("log=", self.log));
        page.sent(whole)
    }
}

// The rest of a block, on tables of its lengths. Room for one node, one slot and one cell more than the host's; tables that are longer can't
// be read. Nothing stands before the tables: what may return before them has them cleared twice.
fn block<R: Read + Drop>(
    rt: &(impl Print + Eprint),
    source: &mut Words<R>,
    sizes: Sizes,
    task: Task,
) -> Result<(), Stop> {
    let mut nodes = [0u64; 16448];
    let mut links = [0u64; 65600];
    let mut values = [0i64; 4128];
    let mut cells = [0i64; 16400];
    let mut log = [0i64; 2112];
    let mut words = [0i64; 4096];
    let mut tables = Tables {
        nodes: source.table(rt, &mut nodes, sizes.nodes)?,
        links: source.table(rt, &mut links, sizes.links)?,
        values: source.table(rt, &mut values, sizes.values)?,
        cells: source.table(rt, &mut cells, sizes.cells)?,
        log: source.table(rt, &mut log, sizes.log)?,
        words: source.table(rt, &mut words, sizes.words)?,
    };
    let answer = tables.done(task);
    tables.show(rt, answer)
}

fn next_block<R: Read + Drop>(
    rt: &(impl Print + Eprint),
    source: &mut Words<R>,
    task: Task,
) -> Result<(), Stop> {
    let sizes = source.lengths(rt)?;
    block(rt, source, sizes, task)
}

// What the arguments ask for.
fn asked(rt: &impl Env) -> Option<Task> {
    match argument_count(rt) {
        0 | 1 => Some(Task::Command),
        2 => {
            let mut name = [0; 16];
            let n = argument(rt, 1, &mut name)?;
            match &name[..n] {
                b"empty" => Some(Task::Emptying),
                _ => None,
            }
        }
        _ => None,
    }
}

fn run(rt: &(impl Input + Print + Eprint), task: Task) {
    let mut buf = [0; 16384];
    let mut source = Words::new(Source::new(rt.reader(), &mut buf));
    for _ in 0..u64::MAX {
        if let Err(stop) = next_block(rt, &mut source, task) {
            if stop == Stop::Misread {
                let _ = rt.eprintln("probe: no such block");
            }
            return;
        }
    }
}

fn main(rt: HostRuntime) {
    match asked(&rt) {
        Some(task) => run(&rt, task),
        None => {
            let _ = rt.eprintln("usage: probe [empty]");
        }
    }
}
