#![tactic(auto)]

// A command on lent tables, decided and then done: what it answers and every word that it leaves. Definitions and laws: the crate `engine` has the code.
pub mod answers;
