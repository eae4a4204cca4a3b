#![tactic(auto)]

// The engine: a command on lent tables is decided, and then done. Every function takes any words.
pub mod command;
pub mod perform;
pub mod tables;
