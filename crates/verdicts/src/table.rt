// The table: rows 2 to 9, tried in number order.
ghost use Rattle.std.specs.Prelude.{◌≡◌, true};
ghost use Rattle.meaning.specs.Refusals.{refusal};
ghost use Rattle.refusing.specs.Numbers.{refused_as};
ghost use Rattle.refusing.specs.Sight.{sight_in};

use crate::batching::{few_rows, wrong_depth};
use crate::making::making;
use refusals::naming::{gone_node, unknown, wrong_node};
use refusing::refusal::Refusal;

// The refusal of a command on tables that are well formed, with so many rows of the log.
pub fn refusal(
    nodes: &[u64],
    links: &[u64],
    cells: &[i64],
    rows: u64,
    words: &[i64],
) -> Option<Refusal>
    ensures { refused_as result ≡ refusal true (sight_in nodes.now links.now cells.now rows) words.now }
{
    if unknown(words) {
        return Some(Refusal::UnknownCommand);
    }
    if wrong_node(nodes, words) {
        return Some(Refusal::WrongNode);
    }
    if gone_node(nodes, words) {
        return Some(Refusal::GoneNode);
    }
    if let Some(r) = making(nodes, links, cells, words) {
        return Some(r);
    }
    if wrong_depth(nodes, words) {
        return Some(Refusal::WrongDepth);
    }
    if few_rows(nodes, rows, words) {
        return Some(Refusal::FewRows);
    }
    None
}
