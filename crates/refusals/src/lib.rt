#![tactic(auto)]

// Document 01, "Nine refusals": the words of a command, what it asks, and rows 2 to 4 of the table. Rows 5 to 9 are in `verdicts`.
pub mod asks;
pub mod commands;
pub mod naming;
