#![tactic(auto)]

// What tables tell of their nodes, said as tests on words and as rules, and that the two are one. No code: the crate `described` has it.
