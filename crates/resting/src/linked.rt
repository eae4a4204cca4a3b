// One of a node's two lists: the fields of a slot that name the node and the two neighbours, and the node's fields for head and tail.
#[derive(Clone, Copy)]
pub struct Side {
    pub own: u64,
    pub prev: u64,
    pub next: u64,
    pub head: u64,
    pub tail: u64,
}
