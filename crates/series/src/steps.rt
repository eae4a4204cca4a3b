// One step of a series: the first command of a list.
ghost use Rattle.std.specs.Prelude.{◌≡◌};
ghost use Rattle.commanding.specs.Command.{command_on};
ghost use Rattle.sequencing.specs.Steps.{written, stepped, step_by};

use crate::list::head;
use engine::command::{Answer, command_on};
use operations::log::number_word;
use refusing::refusal::Refusal;
use sequencing::list::Next;
use sequencing::steps::{Step, Why};

// Words of an answer: code, value, number of runs.
pub const ANSWER: usize = 3;

// An answer at the front of those that are left.
fn put_answer(answers: &mut [i64], code: u64, value: i64, runs: u64)
    ensures { answers.new ≡ written answers.old code value runs }
{
    if answers.len() < ANSWER {
        return;
    }
    answers[..ANSWER].copy_from_slice(&[number_word(code), value, number_word(runs)]);
}

// formed: whether the tables are well formed, as the caller knows.
pub fn one(
    nodes: &mut [u64],
    links: &mut [u64],
    values: &mut [i64],
    cells: &mut [i64],
    log: &mut [i64],
    list: &[i64],
    answers: &mut [i64],
    formed: bool,
) -> Step
    ensures { stepped result nodes.new links.new values.new cells.new log.new answers.new ≡ step_by (command_on formed nodes.old links.old values.old cells.old log.old) nodes.old links.old values.old cells.old log.old list.now answers.old }
{
    match head(list) {
        Next::Over => Step::Stopped(Why::Over),
        Next::Bad => Step::Stopped(Why::List),
        Next::Words(n) => {
            if answers.len() < ANSWER {
                return Step::Stopped(Why::Answers);
            }
            let end = n + 1;
            let done = command_on(nodes, links, values, cells, log, &list[1..end], formed);
            let a = Answer::from(done);
            let few = u64::from(Refusal::FewRows);
            if a.code == few {
                return Step::Stopped(Why::Rows);
            }
            put_answer(answers, a.code, a.value, a.runs);
            Step::Done(end, a.runs as usize)
        }
    }
}
