#![tactic(auto)]

// Document 01, "Nine refusals": rows 5 to 9 of the table, and the table itself, decided apart from doing.
pub mod batching;
pub mod making;
pub mod table;
