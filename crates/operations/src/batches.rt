// Batches: as long as one is open, writes are not followed by a flush. After start_batch, end_batch and get_batch_depth of system.rs.
ghost use Rattle.std.specs.Prelude.{◌≡◌};
ghost use Rattle.reading.specs.Tables.{state};
ghost use Rattle.operating.specs.Log.{ran_to};
ghost use Rattle.operating.specs.Batches.{depth_of, started, ended_batch};

use crate::runs::flush;
use counts::room::MOST_DEPTH;
use primitive::rows::DEPTH;
use primitive::words;

pub fn depth(nodes: &[u64]) -> u64
    ensures { result ≡ depth_of nodes.now }
{
    words::at(nodes, DEPTH)
}

// One batch more, up to the greatest depth.
#[tactic(auto, unfolding(operating::specs::Batches::started))]
pub fn start_batch(nodes: &mut [u64])
    ensures { nodes.new ≡ started nodes.old }
{
    let d = depth(nodes);
    if d < MOST_DEPTH {
        words::put(nodes, DEPTH, d + 1);
    }
}

// One batch less. The end of the outermost flushes.
pub fn end_batch(
    nodes: &mut [u64],
    links: &mut [u64],
    values: &mut [i64],
    cells: &[i64],
    log: &mut [i64],
) -> u64
    ensures { ran_to (state nodes.new links.new values.new) log.new result ≡ ended_batch cells.now (state nodes.old links.old values.old) log.old }
{
    let d = depth(nodes);
    if d == 0 {
        return 0;
    }
    words::put(nodes, DEPTH, d - 1);
    if d == 1 {
        flush(nodes, links, values, cells, log)
    } else {
        0
    }
}
