ghost use Rattle.std.specs.Prelude.{◌≡◌};
ghost use Rattle.refusing.specs.Numbers.{refusal_number};

// Why a command is refused, in the order in which it is tried.
#[derive(Clone, Copy, PartialEq, Eq)]
pub enum Refusal {
    // the tables are not well formed
    WrongTables,
    // unknown command code or wrong word count
    UnknownCommand,
    // a node or an owner is unknown, or of a kind that the command does not take
    WrongNode,
    // the node to dispose, or the owner, is gone
    GoneNode,
    BadFormula,
    TooHigh,
    NoRoom,
    WrongDepth,
    FewRows,
}

// The number that a host is told.
impl From<Refusal> for u64 {
    ghost from_gives = { λ r n. n ≡ refusal_number r };

    fn from(r: Refusal) -> u64 {
        match r {
            Refusal::WrongTables => 1,
            Refusal::UnknownCommand => 2,
            Refusal::WrongNode => 3,
            Refusal::GoneNode => 4,
            Refusal::BadFormula => 5,
            Refusal::TooHigh => 6,
            Refusal::NoRoom => 7,
            Refusal::WrongDepth => 8,
            Refusal::FewRows => 9,
        }
    }
}
