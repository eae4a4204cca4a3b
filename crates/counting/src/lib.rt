#![tactic(auto)]

// What the reserve, the live effects, the rooms and the depths of tables are, said over their words. Definitions and laws: the crate `counts` has the code.
