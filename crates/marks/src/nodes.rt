// The flags of a node: the low byte of its FLAGS word.
ghost use Rattle.std.specs.Prelude.{◌≡◌};
ghost use Rattle.marking.specs.Fields.{flags_of, set_flags};

use flags::Flags;
use primitive::rows::{FLAGS, NODE};
use primitive::words;

pub fn flags(nodes: &[u64], n: u64) -> Flags
    ensures { result.bits ≡ flags_of nodes.now n }
{
    Flags::of_word(words::get(nodes, NODE, n, FLAGS))
}

pub fn set_flags(nodes: &mut [u64], n: u64, f: Flags)
    ensures { nodes.new ≡ set_flags nodes.old n f.bits }
{
    words::store(nodes, NODE, n, FLAGS, u64::from(f));
}
