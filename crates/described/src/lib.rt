#![tactic(auto)]

// What the tables say of nodes: kinds, gone marks, owners, formulas, levels, and the room they take. The first half of the test whether tables are well formed.
// Words that have no meaning are never tested. Every function takes any tables.
mod formulas;
mod levels;
mod nodes;
mod rank;
pub mod whole;
