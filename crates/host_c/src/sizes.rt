// How many words the lent tables take for given capacities, for C; 0 for a number that is no capacity.
ghost use Rattle.std.specs.Prelude.{◌≡◌};
ghost use Rattle.hosting.specs.Sizes.{node_words_of, link_words_of, value_words_of, cell_words_of, log_words_of};

use host::sizes;

#[unsafe(no_mangle)]
pub extern "C" fn simmer_node_words(nodes: u64) -> u64
    ensures { result ≡ node_words_of nodes }
{
    sizes::simmer_node_words(nodes)
}

#[unsafe(no_mangle)]
pub extern "C" fn simmer_link_words(slots: u64) -> u64
    ensures { result ≡ link_words_of slots }
{
    sizes::simmer_link_words(slots)
}

#[unsafe(no_mangle)]
pub extern "C" fn simmer_value_words(nodes: u64) -> u64
    ensures { result ≡ value_words_of nodes }
{
    sizes::simmer_value_words(nodes)
}

#[unsafe(no_mangle)]
pub extern "C" fn simmer_cell_words(cells: u64) -> u64
    ensures { result ≡ cell_words_of cells }
{
    sizes::simmer_cell_words(cells)
}

// No command wants more rows than there are nodes.
#[unsafe(no_mangle)]
pub extern "C" fn simmer_log_words(rows: u64) -> u64
    ensures { result ≡ log_words_of rows }
{
    sizes::simmer_log_words(rows)
}
