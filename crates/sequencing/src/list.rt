// What a list begins with.
#[derive(Clone, Copy, PartialEq, Eq)]
pub enum Next {
    // nothing: it is over
    Over,
    // a word that is no number of words: it is below 0, or more than are left
    Bad,
    // a command of so many words, behind the word that says how many
    Words(usize),
}
