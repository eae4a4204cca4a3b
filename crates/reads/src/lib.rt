#![tactic(auto)]

// Reads: the dirty check, updates and the evaluation of formulas, as one ring of calls that goes from a node to nodes of lower rank. After check_dirty of system.rs, and
// update, update_computed, update_signal, computed_oper and signal_get_oper of lib.rs. Every function takes any tables.
mod computeds;
pub mod cycle;
pub mod places;
pub mod rank;
pub mod read;
mod ring;
mod signals;
mod wakes;
