#![tactic(auto)]

// Demand 3 over lists: definitions and proofs, no functions.
