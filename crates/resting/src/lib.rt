#![tactic(auto)]

// How the words of tables at rest are linked, flagged and queued, said as tests on words and as rules, and that the two are one. No code: the crate `joined` has it.
pub mod linked;
