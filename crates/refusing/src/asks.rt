use primitive::kinds::Kind;

// The kinds of node that a command takes.
#[derive(Clone, Copy, PartialEq, Eq)]
pub enum Takes {
    Signals,
    Readable,
    Owners,
}

// What a command asks of the nodes.
#[derive(Clone, Copy, PartialEq, Eq)]
pub enum Asks {
    // one that there is, of these kinds; to dispose it or not
    Names {
        node: i64,
        takes: Takes,
        ends: bool,
    },
    // a new one of this kind. owner: of a kind that has one, where -1 is none. from: where the cells of its formula begin in the words.
    Makes {
        kind: Kind,
        owner: Option<i64>,
        from: Option<usize>,
    },
    Nothing,
}
