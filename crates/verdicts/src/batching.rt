// Rows 8 and 9 of the table: the batch depth, and the rows of the log.
ghost use Rattle.std.specs.Prelude.{◌≡◌, [], max, leb};
ghost use Rattle.counting.specs.Counts.{counted_in};
ghost use Rattle.meaning.specs.Words.{command_of};
ghost use Rattle.meaning.specs.Refusals.{on, flush_rows, wrong_depth, few_rows};
ghost use Rattle.refusing.specs.Sight.{nodes_alone, sight_in};
ghost use Rattle.refusing.specs.Commands.{number_of};
ghost use Rattle.refusing.specs.Asked.{wanted};

use counts::reserve::live_effects;
use counts::room::{MOST_DEPTH, counted};
use primitive::rows::DEPTH;
use primitive::words;
use refusals::commands::command_of;
use refusing::commands::Command;

// 8: end at depth 0, or start at depth 64.
#[tactic(auto, using(refusing::proofs::BatchingLaws::depth_so), unfolding(refusing::specs::Asked::barred_at, refusing::specs::Commands::number_of))]
pub fn wrong_depth(nodes: &[u64], words: &[i64]) -> bool
    ensures { result ≡ on (command_of words.now) (wrong_depth (nodes_alone nodes.now)) }
{
    let depth = words::at(nodes, DEPTH);
    match command_of(words) {
        Command::Start => MOST_DEPTH <= depth,
        Command::End => depth == 0,
        _ => false,
    }
}

// As many rows as effects are live, where the depth is such that a flush follows.
fn flush_rows(nodes: &[u64], depth: u64) -> u64
    ensures { result ≡ flush_rows (nodes_alone nodes.now) depth }
{
    if words::at(nodes, DEPTH) == depth {
        live_effects(nodes)
    } else {
        0
    }
}

// A new effect wants one row; a set or add at depth 0, or an end at depth 1, wants as many as effects are live.
#[tactic(auto, unfolding(refusing::specs::Asked::wanted, refusing::specs::Commands::number_of))]
fn wanted_rows(nodes: &[u64], command: Command) -> u64
    ensures { result ≡ wanted (nodes_alone nodes.now) (number_of command) }
{
    match command {
        Command::Effect(_) => 1,
        Command::Set(_, _) | Command::Add(_, _) => flush_rows(nodes, 0),
        Command::End => flush_rows(nodes, 1),
        _ => 0,
    }
}

// Whether a log has rows for any command: one, and as many as there are nodes.
fn ample(nodes: &[u64], rows: u64) -> bool
    ensures { result ≡ leb (max 1 (counted_in nodes.now)) rows }
{
    counted(nodes).max(1) <= rows
}

// 9: too few log rows. Live effects are counted only for a log that might be short.
#[tactic(auto, using(refusing::proofs::BatchingLaws::few_by, refusing::proofs::BatchingLaws::not_few), unfolding(meaning::specs::Words::command_of, meaning::specs::Refusals::few_rows))]
pub fn few_rows(nodes: &[u64], rows: u64, words: &[i64]) -> bool
    ensures { result ≡ on (command_of words.now) (few_rows (sight_in nodes.now [] [] rows)) }
{
    !ample(nodes, rows) && rows < wanted_rows(nodes, command_of(words))
}
