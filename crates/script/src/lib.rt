#![tactic(auto)]

// One turn of a script: the first pair of a window on the input, done on lent tables and answered.
pub mod packed;
pub mod turns;

ghost use Rattle.std.specs.Prelude.{◌≡◌};
ghost use Rattle.script.specs.Turns.{tables, turned, turn_in};

use crate::turns::Turn;
use engine::command::{Answer, command};
use spelling::lines::Found;
use text::answers::{put_answer, put_unreadable};
use text::lines::pair;

// over: nothing comes behind the window. What is lent stands one by one as yet: docs/DESIGN-PASS.md, point 5.
pub fn turn(
    nodes: &mut [u64],
    links: &mut [u64],
    values: &mut [i64],
    cells: &mut [i64],
    log: &mut [i64],
    words: &mut [i64],
    out: &mut [u8],
    window: &[u8],
    over: bool,
) -> Turn
    ensures { turned result (tables nodes.new links.new values.new cells.new log.new) words.new out.new ≡ turn_in (tables nodes.old links.old values.old cells.old log.old) words.old out.old window.now over }
{
    match pair(window, words) {
        Found::Short if !over => Turn::More,
        Found::Short if window.is_empty() => Turn::Ended(0),
        Found::Short | Found::Unreadable => Turn::Ended(put_unreadable(out)),
        Found::Pair { behind, count } => {
            let a = Answer::from(command(nodes, links, values, cells, log, &words[..count]));
            Turn::Answered {
                used: window.len() - behind,
                bytes: put_answer(out, a.code, a.value, a.runs, log),
            }
        }
    }
}
