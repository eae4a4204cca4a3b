// One command on lent tables: words in; a refusal, or the value and the number of runs, out.
ghost use Rattle.std.specs.Prelude.{◌≡◌};
ghost use Rattle.refusing.specs.Numbers.{refused_as};
ghost use Rattle.commanding.specs.Answers.{code_in, value_in, runs_in};
ghost use Rattle.commanding.specs.Command.{answered, refusal_on, refusal_in, command_on, command_in};

use crate::perform::perform;
use crate::tables::well_formed;
use commanding::answers::Done;
use refusals::asks::cells_from;
use refusals::commands::command_of;
use refusing::refusal::Refusal;
use verdicts::table;

// An answer in numbers. A refusal has value 0 and runs 0.
#[derive(Clone, Copy, PartialEq, Eq)]
pub struct Answer {
    pub code: u64,
    pub value: i64,
    pub runs: u64,
}

impl From<Result<Done, Refusal>> for Answer {
    ghost from_gives = { λ r a. (a.code ≡ code_in r) × (a.value ≡ value_in r) × (a.runs ≡ runs_in r) };

    fn from(of: Result<Done, Refusal>) -> Answer {
        match of {
            Ok(done) => Answer {
                code: 0,
                value: done.value,
                runs: done.runs,
            },
            Err(r) => Answer {
                code: u64::from(r),
                value: 0,
                runs: 0,
            },
        }
    }
}

// The first of the nine refusals that applies, where it is known whether the tables are well formed.
pub fn refusal_on(
    nodes: &[u64],
    links: &[u64],
    cells: &[i64],
    log: &[i64],
    words: &[i64],
    formed: bool,
) -> Option<Refusal>
    ensures { refused_as result ≡ refusal_on formed nodes.now links.now cells.now log.now words.now }
{
    if formed {
        table::refusal(nodes, links, cells, (log.len() / 2) as u64, words)
    } else {
        Some(Refusal::WrongTables)
    }
}

// The first of the nine refusals that applies.
pub fn refusal(
    nodes: &[u64],
    links: &[u64],
    values: &[i64],
    cells: &[i64],
    log: &[i64],
    words: &[i64],
) -> Option<Refusal>
    ensures { refused_as result ≡ refusal_in nodes.now links.now values.now cells.now log.now words.now }
{
    let formed = well_formed(nodes, links, values, cells);
    refusal_on(nodes, links, cells, log, words, formed)
}

// One command, where it is known whether the tables are well formed.
// Refused, it changes nothing. Accepted, it is done, and its runs are the first rows of the log.
pub fn command_on(
    nodes: &mut [u64],
    links: &mut [u64],
    values: &mut [i64],
    cells: &mut [i64],
    log: &mut [i64],
    words: &[i64],
    formed: bool,
) -> Result<Done, Refusal>
    ensures { answered (code_in result) (value_in result) (runs_in result) nodes.new links.new values.new cells.new log.new ≡ command_on formed nodes.old links.old values.old cells.old log.old words.now }
{
    match refusal_on(nodes, links, cells, log, words, formed) {
        Some(r) => Err(r),
        None => {
            let from = cells_from(words);
            Ok(perform(
                nodes,
                links,
                values,
                cells,
                log,
                command_of(words),
                &words[from..],
            ))
        }
    }
}

pub fn command(
    nodes: &mut [u64],
    links: &mut [u64],
    values: &mut [i64],
    cells: &mut [i64],
    log: &mut [i64],
    words: &[i64],
) -> Result<Done, Refusal>
    ensures { answered (code_in result) (value_in result) (runs_in result) nodes.new links.new values.new cells.new log.new ≡ command_in nodes.old links.old values.old cells.old log.old words.now }
{
    let formed = well_formed(nodes, links, values, cells);
    command_on(nodes, links, values, cells, log, words, formed)
}
