#![tactic(auto)]

// What is counted from lent tables: capacities, the reserve, live effects, owner depths. Nothing is stored, so nothing can disagree with the tables.
pub mod depths;
pub mod reserve;
pub mod room;
