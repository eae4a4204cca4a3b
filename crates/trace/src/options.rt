// What the arguments choose.
use counts::room::{MOST_CELL_ROOM, MOST_NODES, MOST_SLOTS};
use std::env::Env;
use stream::{argument, argument_count, number_argument};

// The capacities, and whether tables are shown.
#[derive(Clone, Copy)]
pub(crate) struct Options {
    pub nodes: u64,
    pub links: u64,
    pub cells: u64,
    pub rows: u64,
    pub tables: bool,
}

#[derive(Clone, Copy)]
enum Flag {
    Nodes,
    Links,
    Cells,
    Rows,
    Many,
    Plain,
    Dump,
}

fn flag_of(name: &[u8]) -> Option<Flag> {
    match name {
        b"--nodes" => Some(Flag::Nodes),
        b"--links" => Some(Flag::Links),
        b"--cells" => Some(Flag::Cells),
        b"--rows" => Some(Flag::Rows),
        b"--many" => Some(Flag::Many),
        b"--plain" => Some(Flag::Plain),
        b"--dump" => Some(Flag::Dump),
        _ => None,
    }
}

fn flag_at(rt: &impl Env, i: usize) -> Option<Flag> {
    let mut name = [0u8; 16];
    let n = argument(rt, i, &mut name)?;
    flag_of(name.get(..n)?)
}

// The number behind the flag at argument i, where it is `least` to `most`. From argument 1,000 on it is 0, whatever stands there.
fn number(rt: &impl Env, i: usize, behind: Option<usize>, least: u64, most: u64) -> Option<u64> {
    let n = if i < 1000 {
        number_argument(rt, behind?)?
    } else {
        0
    };
    (least <= n && n <= most).then_some(n)
}

// The program's capacities where none are chosen; nothing where the arguments can't be read. The bounds are document 01's; rows may be 0.
pub(crate) fn from_arguments(rt: &impl Env) -> Option<Options> {
    let mut chosen = Options {
        nodes: 256,
        links: 1024,
        cells: 2048,
        rows: 256,
        tables: true,
    };
    let mut places = 1..argument_count(rt);
    while let Some(i) = places.next() {
        match flag_at(rt, i)? {
            Flag::Nodes => chosen.nodes = number(rt, i, places.next(), 1, MOST_NODES)?,
            Flag::Links => chosen.links = number(rt, i, places.next(), 1, MOST_SLOTS)?,
            Flag::Cells => chosen.cells = number(rt, i, places.next(), 1, MOST_CELL_ROOM)?,
            Flag::Rows => chosen.rows = number(rt, i, places.next(), 0, MOST_NODES)?,
            Flag::Plain => chosen.tables = false,
            Flag::Many | Flag::Dump => {}
        }
    }
    Some(chosen)
}
