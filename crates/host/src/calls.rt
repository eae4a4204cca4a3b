// The calls: emptying, one command, and many. What is answered goes into a lent reply.
ghost use Rattle.std.specs.Prelude.{◌≡◌};
ghost use Rattle.operating.specs.Emptying.{emptied, emptying};
ghost use Rattle.hosting.specs.Calls.{replied, called, call_in};
ghost use Rattle.hosting.specs.Many.{why_number, many_replied, called_many, calls_in};

use engine::command::{Answer, command};
use operations::emptying::empty;
use operations::log::number_word;
use sequencing::steps::Why;
use series::series;

// Words of a reply: code, value, number of runs, and spare ones.
const REPLY: usize = 8;

// The answer where the lent reply is too short: no refusal, and nothing was done.
const NO_REPLY: u64 = 255;

// The first three words of a reply that has them.
fn put_reply(reply: &mut [i64], code: u64, value: i64, runs: u64)
    ensures { reply.new ≡ replied reply.old code value runs }
{
    if reply.len() < REPLY {
        return;
    }
    reply[..3].copy_from_slice(&[number_word(code), value, number_word(runs)]);
}

// 1, and nothing is touched, where the lengths do not carry capacities; else 0.
pub fn simmer_empty(
    nodes: &mut [u64],
    links: &mut [u64],
    values: &mut [i64],
    cells: &mut [i64],
) -> u64
    ensures { emptied result nodes.new links.new values.new cells.new ≡ emptying nodes.old links.old values.old cells.old }
{
    empty(nodes, links, values, cells)
}

// The refusal number, which is the reply's first word too; its runs are the first rows of the log.
pub fn simmer_command(
    nodes: &mut [u64],
    links: &mut [u64],
    values: &mut [i64],
    cells: &mut [i64],
    log: &mut [i64],
    words: &[i64],
    reply: &mut [i64],
) -> u64
    ensures { called result nodes.new links.new values.new cells.new log.new reply.new ≡ call_in nodes.old links.old values.old cells.old log.old words.now reply.old }
{
    if reply.len() < REPLY {
        return NO_REPLY;
    }
    let a = Answer::from(command(nodes, links, values, cells, log, words));
    put_reply(reply, a.code, a.value, a.runs);
    a.code
}

// A series that stopped, as the number that C is told; what the numbers are stands in `hosting`, above the crate of `Why`.
fn why_number(why: Why) -> u64
    ensures { result ≡ why_number why }
{
    match why {
        Why::Over => 0,
        Why::List => 1,
        Why::Answers => 2,
        Why::Rows => 3,
    }
}

// The first four words of a reply that has them.
fn put_many(reply: &mut [i64], why: u64, used: u64, done: u64, rows: u64)
    ensures { reply.new ≡ many_replied reply.old why used done rows }
{
    if reply.len() < REPLY {
        return;
    }
    reply[..4].copy_from_slice(&[
        number_word(why),
        number_word(used),
        number_word(done),
        number_word(rows),
    ]);
}

// Why it stopped, which is the reply's first word too; behind it the words used, the commands done and the rows written.
pub fn simmer_commands(
    nodes: &mut [u64],
    links: &mut [u64],
    values: &mut [i64],
    cells: &mut [i64],
    rows: &mut [i64],
    list: &[i64],
    answers: &mut [i64],
    reply: &mut [i64],
) -> u64
    ensures { called_many result nodes.new links.new values.new cells.new rows.new answers.new reply.new ≡ calls_in nodes.old links.old values.old cells.old rows.old list.now answers.old reply.old }
{
    if reply.len() < REPLY {
        return NO_REPLY;
    }
    let e = series(nodes, links, values, cells, rows, list, answers);
    let stopped = e.why;
    let why = why_number(stopped);
    put_many(reply, why, e.used as u64, e.done as u64, e.rows as u64);
    why
}
