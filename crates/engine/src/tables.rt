// Whether lent tables are well formed: what they say of nodes, and how these are linked, flagged and queued.
ghost use Rattle.std.specs.Prelude.{◌≡◌};
ghost use Rattle.commanding.specs.Tables.{well_formed_in};

use described::whole::described;
use joined::joined;

#[tactic(auto, unfolding(commanding::specs::Tables::well_formed_in))]
pub fn well_formed(nodes: &[u64], links: &[u64], values: &[i64], cells: &[i64]) -> bool
    ensures { result ≡ well_formed_in nodes.now links.now values.now cells.now }
{
    described(nodes, links, values, cells) && joined(nodes, links, cells)
}
