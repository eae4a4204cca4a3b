#![tactic(auto)]

// What a C program links: the functions of `host`, each under its own name. A slice crosses as a pointer and a length in words.
// Each does no more than call its namesake, and promises what that promises.
pub mod calls;
pub mod sizes;
