// Doing: what an accepted command does, once it is decided.
ghost use Rattle.std.specs.Prelude.{◌≡◌};
ghost use Rattle.reading.specs.Tables.{state};
ghost use Rattle.operating.specs.Log.{ran_to};
ghost use Rattle.meaning.specs.Words.{node_of};
ghost use Rattle.commanding.specs.Perform.{owner_word, done, performed};

use commanding::answers::Done;
use formula::cells::natural;
use links::unlink::dispose;
use making::{new_computed, new_effect, new_scope, new_signal};
use operations::batches::{end_batch, start_batch};
use operations::log::number_word;
use operations::writes::{add, set};
use reads::read::read;
use refusing::commands::Command;
use values::Value;

// The node of a number that is known to be one.
fn node_of(k: i64) -> u64
    ensures { result ≡ node_of k }
{
    natural(k).unwrap_or(0)
}

// The owner as a word of the tables: 0 for none, else its number + 1.
fn owner_word(k: i64) -> u64
    ensures { result ≡ owner_word k }
{
    natural(k).map_or(0, |n| n + 1)
}

// The cells of the command's formula are lent beside it.
pub fn perform(
    nodes: &mut [u64],
    links: &mut [u64],
    values: &mut [i64],
    cells: &mut [i64],
    log: &mut [i64],
    command: Command,
    formula: &[i64],
) -> Done
    ensures { done result.value (ran_to (state nodes.new links.new values.new) log.new result.runs) cells.new ≡ performed (state nodes.old links.old values.old) cells.old log.old command formula.now }
{
    match command {
        Command::Signal(k) => {
            let n = new_signal(nodes, values, cells, Value::of(k));
            Done {
                value: number_word(n),
                runs: 0,
            }
        }
        Command::Computed => {
            let n = new_computed(nodes, values, cells, formula);
            Done {
                value: number_word(n),
                runs: 0,
            }
        }
        Command::Effect(o) => {
            let e = new_effect(nodes, links, values, cells, log, owner_word(o), formula);
            Done {
                value: number_word(e.number),
                runs: e.rows,
            }
        }
        Command::Scope(o) => {
            let n = new_scope(nodes, links, values, cells, owner_word(o));
            Done {
                value: number_word(n),
                runs: 0,
            }
        }
        Command::Set(n, k) => {
            let runs = set(nodes, links, values, cells, log, node_of(n), Value::of(k));
            Done { value: 0, runs }
        }
        Command::Add(n, k) => {
            let runs = add(nodes, links, values, cells, log, node_of(n), Value::of(k));
            Done { value: 0, runs }
        }
        Command::Read(n) => {
            let v = read(nodes, links, values, cells, node_of(n));
            Done {
                value: v.word,
                runs: 0,
            }
        }
        Command::Dispose(n) => {
            dispose(nodes, links, node_of(n));
            Done { value: 0, runs: 0 }
        }
        Command::Start => {
            start_batch(nodes);
            Done { value: 0, runs: 0 }
        }
        Command::End => {
            let runs = end_batch(nodes, links, values, cells, log);
            Done { value: 0, runs }
        }
        Command::Unknown => Done { value: 0, runs: 0 },
    }
}
