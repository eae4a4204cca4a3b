#![tactic(auto)]

// What the commands do: writes, runs and flushes, batches, emptying; the crate `making` makes nodes. After _signal_set_oper_core, signal_set_with_oper, run and flush of lib.rs and
// start_batch, end_batch of system.rs. Every function takes any tables.
pub mod batches;
pub mod emptying;
pub mod log;
pub mod runs;
pub mod writes;
