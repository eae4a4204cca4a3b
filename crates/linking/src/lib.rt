#![tactic(auto)]

// How links come and go, said over the words of tables: the free list, link, and the ring of unlink, unwatched, dispose and purge. Definitions and laws: the crate `links` has the code.
pub mod link;
