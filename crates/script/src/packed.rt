// One step in a stream of many scripts: what its window asks for, done on lent tables.
ghost use Rattle.std.specs.Prelude.{◌≡◌};
ghost use Rattle.script.specs.Turns.{tables};
ghost use Rattle.script.specs.Packed.{step_of, played, play_in};

use crate::turn;
use crate::turns::Turn;
use operations::emptying::empty;
use packs::{Act, Place, decide};

// What a step comes to.
#[derive(Clone, Copy, PartialEq, Eq, Debug)]
pub enum Step {
    Read,
    // A pair was answered: `used` bytes of the window are done, out[..bytes] is the answer.
    Answered { used: usize, bytes: usize },
    // The answers of a script are over, the last of so many bytes.
    Ended(usize),
    // The next script begins behind so many bytes, on empty tables.
    Next(usize),
    // So many bytes are passed over; the line goes on, or another begins.
    Within(usize),
    Past(usize),
    Stop,
}

impl From<Turn> for Step {
    ghost from_gives = { λ turned step. step ≡ step_of turned };

    fn from(turned: Turn) -> Step {
        match turned {
            Turn::More => Step::Read,
            Turn::Answered { used, bytes } => Step::Answered { used, bytes },
            Turn::Ended(bytes) => Step::Ended(bytes),
        }
    }
}

// Lent one by one, as to `turn`.
pub fn play(
    nodes: &mut [u64],
    links: &mut [u64],
    values: &mut [i64],
    cells: &mut [i64],
    log: &mut [i64],
    words: &mut [i64],
    out: &mut [u8],
    window: &[u8],
    over: bool,
    place: Place,
) -> Step
    ensures { played result (tables nodes.new links.new values.new cells.new log.new) words.new out.new ≡ play_in (tables nodes.old links.old values.old cells.old log.old) words.old out.old window.now over place }
{
    match decide(window, over, place) {
        Act::Read => Step::Read,
        Act::Turn(n, last) => {
            if window.len() < n {
                return Step::Stop;
            }
            let script = &window[..n];
            Step::from(turn(nodes, links, values, cells, log, words, out, script, last))
        }
        Act::Script(used) => {
            empty(nodes, links, values, cells);
            Step::Next(used)
        }
        Act::Within(used) => Step::Within(used),
        Act::Past(used) => Step::Past(used),
        Act::Stop => Step::Stop,
    }
}
