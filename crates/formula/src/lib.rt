#![tactic(auto)]

// Formulas, which take the place of the Rust's closures: cells of two words in prefix order.
pub mod cells;
pub mod legal;
pub mod scans;
