// Rows 2 to 4 of the table: the command, and the nodes that it names.
ghost use Rattle.std.specs.Prelude.{◌≡◌};
ghost use Rattle.meaning.specs.State.{readable};
ghost use Rattle.meaning.specs.Words.{command_of};
ghost use Rattle.meaning.specs.Refusals.{on, unknown, is_a, wrong_owner, wrong_node, is_gone, gone_node};
ghost use Rattle.refusing.specs.Sight.{kind_of, nodes_alone};
ghost use Rattle.refusing.specs.Asked.{taken};

use crate::asks::asks_of;
use crate::commands::command_of;
use formula::cells::natural;
use primitive::kinds::Kind;
use primitive::rows::{COUNT, GONE, KIND, NODE};
use primitive::words;
use refusing::asks::{Asks, Takes};
use refusing::commands::Command;

// 2: unknown command code or wrong word count.
pub fn unknown(words: &[i64]) -> bool
    ensures { result ≡ unknown (command_of words.now) }
{
    matches!(command_of(words), Command::Unknown)
}

// Whether a node of this kind word is taken.
#[tactic(auto, using(refusing::proofs::NamingLaws::kind_signal))]
fn takes_kind(t: Takes, kind: u64) -> bool
    ensures { result ≡ taken t (kind_of kind) }
{
    match t {
        Takes::Signals => kind == Kind::Signal.word(),
        Takes::Readable => readable_kind(kind),
        Takes::Owners => !readable_kind(kind),
    }
}

#[tactic(auto, using(refusing::proofs::Formulas::readable_kind), unfolding(trees::specs::Legal::read_kind))]
fn readable_kind(kind: u64) -> bool
    ensures { result ≡ readable (kind_of kind) }
{
    matches!(Kind::of_word(kind), Some(Kind::Signal | Kind::Computed))
}

// Whether n is the number of a node of a kind that is taken.
#[tactic(auto, unfolding(meaning::specs::Refusals::is_a))]
fn is_a(nodes: &[u64], t: Takes, n: i64) -> bool
    ensures { result ≡ is_a (nodes_alone nodes.now) (taken t) n }
{
    match natural(n) {
        Some(k) => k < words::at(nodes, COUNT) && takes_kind(t, words::get(nodes, NODE, k, KIND)),
        None => false,
    }
}

// -1 as owner means none.
#[tactic(auto, using(refusing::proofs::NamingLaws::owner_nobody, refusing::proofs::NamingLaws::owner_somebody))]
fn wrong_owner(nodes: &[u64], owner: i64) -> bool
    ensures { result ≡ wrong_owner (nodes_alone nodes.now) owner }
{
    owner != -1 && !is_a(nodes, Takes::Owners, owner)
}

// 3: node or owner number unknown, or of a kind the command doesn't take.
pub fn wrong_node(nodes: &[u64], words: &[i64]) -> bool
    ensures { result ≡ on (command_of words.now) (wrong_node (nodes_alone nodes.now)) }
{
    match asks_of(words) {
        Asks::Names { node, takes, .. } => !is_a(nodes, takes, node),
        Asks::Makes {
            owner: Some(owner),
            ..
        } => wrong_owner(nodes, owner),
        _ => false,
    }
}

fn is_gone(nodes: &[u64], n: i64) -> bool
    ensures { result ≡ is_gone (nodes_alone nodes.now) n }
{
    match natural(n) {
        Some(k) => words::get(nodes, NODE, k, GONE) != 0,
        None => false,
    }
}

// 4: the node to dispose, or the owner, is gone.
pub fn gone_node(nodes: &[u64], words: &[i64]) -> bool
    ensures { result ≡ on (command_of words.now) (gone_node (nodes_alone nodes.now)) }
{
    match asks_of(words) {
        Asks::Names { node, ends, .. } => ends && is_gone(nodes, node),
        Asks::Makes {
            owner: Some(owner),
            ..
        } => is_gone(nodes, owner),
        _ => false,
    }
}
