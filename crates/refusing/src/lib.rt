#![tactic(auto)]

// Document 01, "Nine refusals", said over the words of tables and a command, and that they are those of `meaning`. Definitions and laws: the crates `refusals` and `verdicts` have the code.
pub mod asks;
pub mod commands;
pub mod refusal;
