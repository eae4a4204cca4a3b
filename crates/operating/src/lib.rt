#![tactic(auto)]

// What the commands do, said over the words of tables: writes, runs and flushes, batches, emptying, making. Definitions and laws: the crates `operations` and `making` have the code.
pub mod making;
