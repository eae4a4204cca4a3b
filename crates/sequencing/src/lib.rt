#![tactic(auto)]

// Many commands in one call: where each begins in the list, what each does, and where and why the series stops. Definitions and laws: the crate `series` has the code.
pub mod list;
pub mod steps;
