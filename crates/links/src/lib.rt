#![tactic(auto)]

// The links between nodes: the free list of slots, link, and the ring of calls through which links go. After node.rs, and link and unlink of system.rs; unwatched,
// effect_scope_oper and purge_deps of lib.rs.
pub mod free;
pub mod link;
mod neighbours;
mod ring;
pub mod unlink;
