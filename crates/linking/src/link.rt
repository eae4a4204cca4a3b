// The words of a new link; its next_sub is nothing.
#[derive(Clone, Copy)]
pub struct LinkInit {
    pub version: u64,
    pub dep: u64,
    pub sub: u64,
    pub prev_dep: u64,
    pub next_dep: u64,
    pub prev_sub: u64,
}
