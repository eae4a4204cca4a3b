#![tactic(auto)]

// The calls of the library, said over their words: sizes of tables, replies, and the code of each call. Definitions and laws: the crate `host` has the code.
