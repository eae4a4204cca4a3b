#![tactic(auto)]

// The lines of scripts and of answers: strict decimals, pairs of lines, and what is written. It calls no system, and asks nothing of its caller.
pub mod answers;
pub mod lines;
pub mod numbers;
