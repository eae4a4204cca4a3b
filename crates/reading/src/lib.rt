#![tactic(auto)]

// Reads, the dirty check, updates and evaluation, said over the words of tables. Definitions and laws: the crate `reads` has the code.
