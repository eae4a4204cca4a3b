// Why a series stops.
#[derive(Clone, Copy, PartialEq, Eq)]
pub enum Why {
    // the list is over
    Over,
    // its next word is no number of words
    List,
    // no room for the next answer
    Answers,
    // the next command wants more rows than are left; nothing else stands against it
    Rows,
}

// What a step comes to.
#[derive(Clone, Copy, PartialEq, Eq)]
pub enum Step {
    // nothing was done
    Stopped(Why),
    // Done(words, runs): the command was answered, refusals too; so many words of the list, so many rows
    Done(usize, usize),
}
