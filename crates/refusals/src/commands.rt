// The words of a command, taken apart. Nothing else looks at them, but for the cells of a formula.
ghost use Rattle.std.specs.Prelude.{◌≡◌};
ghost use Rattle.meaning.specs.Words.{command_of};
ghost use Rattle.refusing.specs.Commands.{takes_words, command_by, brief};

use formula::cells::natural;
use primitive::words;
use refusing::commands::Command;

// Whether so many words are as many as the command of this code takes. The numbers are the host's: the C interface.
#[tactic(auto, unfolding(refusing::specs::Commands::takes_words))]
fn takes_words(code: u64, n: usize) -> bool
    ensures { result ≡ takes_words code n }
{
    match code {
        1 => n == 2,
        2 => n % 2 == 1,
        3 => n % 2 == 0,
        4 => n == 2,
        5 => n == 3,
        6 => n == 3,
        7 => n == 2,
        8 => n == 2,
        9 => n == 1,
        10 => n == 1,
        _ => false,
    }
}

// The command of this number, with the two words after its code. The numbers are the C interface's.
#[tactic(auto, unfolding(refusing::specs::Commands::command_by))]
fn command_by(k: u64, a: i64, b: i64) -> Command
    ensures { result ≡ command_by k a b }
{
    match k {
        1 => Command::Signal(a),
        2 => Command::Computed,
        3 => Command::Effect(a),
        4 => Command::Scope(a),
        5 => Command::Set(a, b),
        6 => Command::Add(a, b),
        7 => Command::Read(a),
        8 => Command::Dispose(a),
        9 => Command::Start,
        10 => Command::End,
        _ => Command::Unknown,
    }
}

pub fn command_of(words: &[i64]) -> Command
    ensures { result ≡ brief (command_of words.now) }
{
    match natural(words::at(words, 0)) {
        Some(code) if takes_words(code, words.len()) => command_by(
            code,
            words::at(words, 1),
            words::at(words, 2),
        ),
        _ => Command::Unknown,
    }
}
