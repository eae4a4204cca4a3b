// What a turn comes to.
#[derive(Clone, Copy, PartialEq, Eq, Debug)]
pub enum Turn {
    // The window holds no whole pair, and the input goes on.
    More,
    // A pair was answered: `used` bytes of the window are done, out[..bytes] is the answer.
    Answered { used: usize, bytes: usize },
    // The run ends: out[..bytes] is the last answer, empty where the input ended between pairs.
    Ended(usize),
}
