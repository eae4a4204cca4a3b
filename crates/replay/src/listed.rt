// The packs that the arguments list, and what is printed of each.
use crate::held::Tally;
use std::env::Env;
use std::fmt::Write;
use std::rt::Files;
use std::{fs, io, str};
use stream::{Outlet, argument, fail, number_argument};
use text::answers::put_all;

// Document 01's capacities.
#[derive(Clone, Copy)]
pub(crate) struct Capacities {
    pub nodes: u64,
    pub links: u64,
    pub cells: u64,
    pub rows: u64,
}

impl Capacities {
    // Those that four arguments spell, where they are numbers within document 01's bounds.
    pub(crate) fn spelled(rt: &impl Env, places: [usize; 4]) -> Option<Capacities> {
        let [nodes, links, cells, rows] = places;
        let most = Capacities {
            nodes: 1024,
            links: 8192,
            cells: 8192,
            rows: 1024,
        };
        let spelled = Capacities {
            nodes: number_argument(rt, nodes)?,
            links: number_argument(rt, links)?,
            cells: number_argument(rt, cells)?,
            rows: number_argument(rt, rows)?,
        };
        spelled.fit(most).then_some(spelled)
    }

    // No table has a word.
    pub(crate) fn none() -> Capacities {
        Capacities {
            nodes: 0,
            links: 0,
            cells: 0,
            rows: 0,
        }
    }

    // Whether there is room for these.
    pub(crate) fn fit(self, room: Capacities) -> bool {
        self.nodes <= room.nodes
            && self.links <= room.links
            && self.cells <= room.cells
            && self.rows <= room.rows
    }
}

// Opens the file of a pack, named by argument i and an ending.
fn open_by<R: Files + Env>(rt: &R, i: usize, ending: &[u8]) -> io::Result<R::File> {
    let mut name = [0u8; 256];
    let n = argument(rt, i, &mut name).unwrap_or(0);
    let end = put_all(&mut name, n, ending);
    let path = name.get(..end).and_then(|bytes| str::from_utf8(bytes).ok());
    match path {
        Some(path) => fs::open(rt, path),
        None => Err(io::Error::from(io::ErrorKind::InvalidInput)),
    }
}

// Where there is no such file, that is told on standard error.
pub(crate) fn open<R: Files + Env + Eprint>(rt: &R, i: usize, ending: &[u8]) -> Option<R::File> {
    match open_by(rt, i, ending) {
        Ok(file) => Some(file),
        Err(e) => {
            fail(rt, "open", e);
            None
        }
    }
}

// A line: the pack named by argument i, what was compared, and whether it was the same. What finds no room is left out.
pub(crate) fn tell(rt: &(impl Env + Print + Eprint), i: usize, tally: Tally) {
    let mut out = [0u8; 512];
    let n = argument(rt, i, &mut out).unwrap_or(0);
    let mut to = Outlet::new(io::writer(rt), &mut out);
    to.sink.at = n;
    let Tally {
        scripts,
        answers,
        same,
    } = tally;
    let found = if same {
        "0 differences"
    } else {
        "and there it DIFFERS"
    };
    let _ = write!(to, ": {scripts} scripts, {answers} answers, {found}\n");
    to.flush(rt);
}
