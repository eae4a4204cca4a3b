// What a node is, as a table word says it.
ghost use Rattle.std.specs.Prelude.{◌≡◌, IfSome, IfNone};
ghost use Rattle.primitive.specs.Kinds.{kind_of, kind_word, IsNoKind};

// Formulas read the first two.
#[derive(Clone, Copy, PartialEq, Eq)]
pub enum Kind {
    Signal,
    Computed,
    Effect,
    Scope,
}

impl Kind {
    // None where the word is no kind's: 0, or past the four.
    pub fn of_word(w: u64) -> Option<Kind>
        ensures kind { result ≡ kind_of w }
        ensures word { IfSome result (λ k. w ≡ kind_word k) }
        ensures none { IfNone result (IsNoKind w) }
    {
        match w {
            1 => Some(Kind::Signal),
            2 => Some(Kind::Computed),
            3 => Some(Kind::Effect),
            4 => Some(Kind::Scope),
            _ => None,
        }
    }

    pub fn word(self) -> u64
        ensures { result ≡ kind_word self }
    {
        match self {
            Kind::Signal => 1,
            Kind::Computed => 2,
            Kind::Effect => 3,
            Kind::Scope => 4,
        }
    }
}
