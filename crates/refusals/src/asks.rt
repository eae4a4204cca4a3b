// What a command asks of the nodes, told in one way for all ten.
ghost use Rattle.std.specs.Prelude.{◌≡◌};
ghost use Rattle.meaning.specs.Words.{command_of};
ghost use Rattle.refusing.specs.Commands.{brief};
ghost use Rattle.refusing.specs.Asked.{asked, cells_from};

use crate::commands::command_of;
use primitive::kinds::Kind;
use refusing::asks::{Asks, Takes};
use refusing::commands::Command;

// Set and add take signals; read takes signals and computeds; dispose takes effects and scopes.
#[tactic(auto, unfolding(refusing::specs::Asked::asked))]
pub fn asks_of(words: &[i64]) -> Asks
    ensures { result ≡ asked (brief (command_of words.now)) }
{
    match command_of(words) {
        Command::Signal(_) => Asks::Makes {
            kind: Kind::Signal,
            owner: None,
            from: None,
        },
        Command::Computed => Asks::Makes {
            kind: Kind::Computed,
            owner: None,
            from: Some(1),
        },
        Command::Effect(o) => Asks::Makes {
            kind: Kind::Effect,
            owner: Some(o),
            from: Some(2),
        },
        Command::Scope(o) => Asks::Makes {
            kind: Kind::Scope,
            owner: Some(o),
            from: None,
        },
        Command::Set(n, _) => Asks::Names {
            node: n,
            takes: Takes::Signals,
            ends: false,
        },
        Command::Add(n, _) => Asks::Names {
            node: n,
            takes: Takes::Signals,
            ends: false,
        },
        Command::Read(n) => Asks::Names {
            node: n,
            takes: Takes::Readable,
            ends: false,
        },
        Command::Dispose(n) => Asks::Names {
            node: n,
            takes: Takes::Owners,
            ends: true,
        },
        Command::Start | Command::End | Command::Unknown => Asks::Nothing,
    }
}

// Where the cells of the formula begin in the words; at their end if there is none.
pub fn cells_from(words: &[i64]) -> usize
    ensures { result ≡ cells_from words.now }
{
    match asks_of(words) {
        Asks::Makes { from, .. } => from.unwrap_or(words.len()),
        Asks::Names { .. } | Asks::Nothing => words.len(),
    }
}
