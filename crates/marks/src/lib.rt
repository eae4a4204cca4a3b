#![tactic(auto)]

// Marks and their walks. After system.rs: propagate, shallow_propagate, is_valid_link. After lib.rs: notify.
// Every function takes any tables: a walk has a budget of turns, and no promise asks anything of its caller.
pub mod effects;
pub mod nodes;
pub mod walks;
