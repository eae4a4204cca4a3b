#![tactic(auto)]

// Marks and their walks, said over the words of tables: propagate, shallow propagation, notify. Definitions and laws: the crate `marks` has the code.
