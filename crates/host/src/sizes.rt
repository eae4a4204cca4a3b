// How many words the lent tables take for given capacities; 0 for a number that is no capacity.
ghost use Rattle.std.specs.Prelude.{◌≡◌, ◌≤◌};
ghost use Rattle.hosting.specs.Sizes.{words_for, node_words_of, link_words_of, value_words_of, cell_words_of, log_words_of};

use counts::room::{MOST_CELL_ROOM, MOST_NODES, MOST_SLOTS};

// n records and `header` more, of `each` words, where n is 1 to `most`.
fn words_for(most: u64, header: u64, each: u64, n: u64) -> u64
    requires most_bound { most ≤ 8192 }
    requires header_bound { header ≤ 1 }
    requires each_bound { each ≤ 16 }
    ensures { result ≡ words_for most header each n }
{
    if n == 0 {
        return 0;
    }
    if n > most {
        return 0;
    }
    (header + n) * each
}

pub fn simmer_node_words(nodes: u64) -> u64
    ensures { result ≡ node_words_of nodes }
{
    words_for(MOST_NODES, 1, 16, nodes)
}

pub fn simmer_link_words(slots: u64) -> u64
    ensures { result ≡ link_words_of slots }
{
    words_for(MOST_SLOTS, 1, 8, slots)
}

pub fn simmer_value_words(nodes: u64) -> u64
    ensures { result ≡ value_words_of nodes }
{
    words_for(MOST_NODES, 0, 4, nodes)
}

pub fn simmer_cell_words(cells: u64) -> u64
    ensures { result ≡ cell_words_of cells }
{
    words_for(MOST_CELL_ROOM, 0, 2, cells)
}

// No command wants more rows than there are nodes.
pub fn simmer_log_words(rows: u64) -> u64
    ensures { result ≡ log_words_of rows }
{
    words_for(MOST_NODES, 0, 2, rows)
}
