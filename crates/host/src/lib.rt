#![tactic(auto)]

// The calls of a host: document 01's engine behind lent words. `host_c` gives each of these functions to C under the same name.
// No state, no allocation, nothing printed; every function takes any numbers and any words.
pub mod calls;
pub mod sizes;
