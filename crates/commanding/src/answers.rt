// What an accepted command answers: the value returned, and how many effects ran.
#[derive(Clone, Copy, PartialEq, Eq)]
pub struct Done {
    pub value: i64,
    pub runs: u64,
}
