#![tactic(auto)]

// Many commands on lent tables, one after another. The tables are tested once.
pub mod list;
pub mod steps;

ghost use Rattle.std.specs.Prelude.{◌≡◌};
ghost use Rattle.sequencing.specs.Series.{going, ended, series_in};

use crate::steps::{ANSWER, one};
use engine::tables::well_formed;
use sequencing::steps::{Step, Why};

// Words of a row of the log.
const ROW: usize = 2;

// used: words of the list that are done with; where the list is bad, its bad word is the next.
// rows: how many rows the commands wrote, one after another.
#[derive(Clone, Copy)]
pub struct Ended {
    pub why: Why,
    pub used: usize,
    pub done: usize,
    pub rows: usize,
}

// Each command is lent what is left of the rows, and of the answers.
pub fn series(
    nodes: &mut [u64],
    links: &mut [u64],
    values: &mut [i64],
    cells: &mut [i64],
    rows: &mut [i64],
    list: &[i64],
    answers: &mut [i64],
) -> Ended
    ensures { ended result.why (going nodes.new links.new values.new cells.new rows.new answers.new result.used result.done result.rows) ≡ series_in nodes.old links.old values.old cells.old rows.old list.now answers.old }
{
    let formed = well_formed(nodes, links, values, cells);
    let mut used: usize = 0;
    let mut done: usize = 0;
    let mut ran: usize = 0;
    // A step says how many words it took.
    while used < list.len() {
        let at = ran * ROW;
        let to = done * ANSWER;
        match one(
            nodes,
            links,
            values,
            cells,
            &mut rows[at..],
            &list[used..],
            &mut answers[to..],
            formed,
        ) {
            Step::Stopped(why) => {
                return Ended {
                    why,
                    used,
                    done,
                    rows: ran,
                };
            }
            Step::Done(words, runs) => {
                used += words;
                done += 1;
                ran += runs;
            }
        }
    }
    Ended {
        why: Why::Over,
        used,
        done,
        rows: ran,
    }
}
