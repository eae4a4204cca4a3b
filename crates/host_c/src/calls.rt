// The calls, for C: emptying, one command, and many.
ghost use Rattle.std.specs.Prelude.{◌≡◌};
ghost use Rattle.operating.specs.Emptying.{emptied, emptying};
ghost use Rattle.hosting.specs.Calls.{called, call_in};
ghost use Rattle.hosting.specs.Many.{called_many, calls_in};

use host::calls;

// 1, and nothing is touched, where the lengths do not carry capacities; else 0.
#[unsafe(no_mangle)]
pub extern "C" fn simmer_empty(
    nodes: &mut [u64],
    links: &mut [u64],
    values: &mut [i64],
    cells: &mut [i64],
) -> u64
    ensures { emptied result nodes.new links.new values.new cells.new ≡ emptying nodes.old links.old values.old cells.old }
{
    calls::simmer_empty(nodes, links, values, cells)
}

// The refusal number, which is the reply's first word too; its runs are the first rows of the log.
#[unsafe(no_mangle)]
pub extern "C" fn simmer_command(
    nodes: &mut [u64],
    links: &mut [u64],
    values: &mut [i64],
    cells: &mut [i64],
    log: &mut [i64],
    words: &[i64],
    reply: &mut [i64],
) -> u64
    ensures { called result nodes.new links.new values.new cells.new log.new reply.new ≡ call_in nodes.old links.old values.old cells.old log.old words.now reply.old }
{
    calls::simmer_command(nodes, links, values, cells, log, words, reply)
}

// Why it stopped, which is the reply's first word too; behind it the words used, the commands done and the rows written.
#[unsafe(no_mangle)]
pub extern "C" fn simmer_commands(
    nodes: &mut [u64],
    links: &mut [u64],
    values: &mut [i64],
    cells: &mut [i64],
    rows: &mut [i64],
    list: &[i64],
    answers: &mut [i64],
    reply: &mut [i64],
) -> u64
    ensures { called_many result nodes.new links.new values.new cells.new rows.new answers.new reply.new ≡ calls_in nodes.old links.old values.old cells.old rows.old list.now answers.old reply.old }
{
    calls::simmer_commands(nodes, links, values, cells, rows, list, answers, reply)
}
