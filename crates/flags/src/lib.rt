#![tactic(auto)]

// The flags of a node: single bits of one byte, joined, masked and cleared by value, as the Rust does.
ghost use Rattle.std.specs.Prelude.{◌≡◌, ◌-◌, ◌%◌, eqb, not};
ghost use Rattle.std.specs.Int.Bits.{bit_and, bit_or};
ghost use Rattle.flags.specs.Flags.{named};

#[derive(Clone, Copy, PartialEq, Eq)]
pub struct Flags {
    pub bits: u8,
}

// Which of the six named bits are set.
#[derive(Clone, Copy, PartialEq, Eq)]
pub struct Named {
    pub mutable: bool,
    pub watching: bool,
    pub recursed_check: bool,
    pub recursed: bool,
    pub dirty: bool,
    pub pending: bool,
}

impl Flags {
    pub const NONE: Flags = Flags { bits: 0 };

    pub const MUTABLE: Flags = Flags { bits: 1 };

    pub const WATCHING: Flags = Flags { bits: 2 };

    pub const RECURSED_CHECK: Flags = Flags { bits: 4 };

    pub const RECURSED: Flags = Flags { bits: 8 };

    pub const DIRTY: Flags = Flags { bits: 16 };

    pub const PENDING: Flags = Flags { bits: 32 };

    // A node whose dependency has changed, and one whose dependency may have.
    pub const STALE: Flags = Flags {
        bits: Flags::MUTABLE.bits | Flags::DIRTY.bits,
    };

    pub const UNSURE: Flags = Flags {
        bits: Flags::MUTABLE.bits | Flags::PENDING.bits,
    };

    // A computed while its formula is evaluated, and an effect while it runs.
    pub const EVALUATING: Flags = Flags {
        bits: Flags::MUTABLE.bits | Flags::RECURSED_CHECK.bits,
    };

    pub const RUNNING: Flags = Flags {
        bits: Flags::WATCHING.bits | Flags::RECURSED_CHECK.bits,
    };

    // A table word holds the flags in its low byte. A method and no From: what the word has above that byte is lost.
    pub fn of_word(w: u64) -> Flags
        ensures { result.bits ≡ w % 256 }
    {
        Flags {
            bits: (w % 256) as u8,
        }
    }

    // The two tests and the three operations are methods: a rule of the project.
    pub fn is_zero(self) -> bool
        ensures { result ≡ eqb self.bits 0 }
    {
        self == Flags::NONE
    }

    pub fn is_nonzero(self) -> bool
        ensures { result ≡ not (eqb self.bits 0) }
    {
        self != Flags::NONE
    }

    // The bits of either: the Rust's `|` and `add_flags`.
    pub fn join(self, more: Flags) -> Flags
        ensures { result.bits ≡ bit_or self.bits more.bits }
    {
        Flags {
            bits: self.bits | more.bits,
        }
    }

    // The bits of both: the Rust's `&`.
    pub fn mask(self, kept: Flags) -> Flags
        ensures { result.bits ≡ bit_and self.bits kept.bits }
    {
        Flags {
            bits: self.bits & kept.bits,
        }
    }

    // The bits but these: the Rust's `& !` and `remove_flags`.
    pub fn clear(self, less: Flags) -> Flags
        ensures { result.bits ≡ bit_and self.bits (255 - less.bits) }
    {
        Flags {
            bits: self.bits & !less.bits,
        }
    }

    // Whether one of these bits is set.
    pub fn has(self, some: Flags) -> bool
        ensures { result ≡ not (eqb (bit_and self.bits some.bits) 0) }
    {
        self.mask(some).is_nonzero()
    }

    // Whether all of these bits are set.
    pub fn has_all(self, all: Flags) -> bool
        ensures { result ≡ eqb (bit_and self.bits all.bits) all.bits }
    {
        self.mask(all) == all
    }

    pub fn names(self) -> Named
        ensures { result ≡ named self.bits }
    {
        Named {
            mutable: self.mask(Flags::MUTABLE).is_nonzero(),
            watching: self.mask(Flags::WATCHING).is_nonzero(),
            recursed_check: self.mask(Flags::RECURSED_CHECK).is_nonzero(),
            recursed: self.mask(Flags::RECURSED).is_nonzero(),
            dirty: self.mask(Flags::DIRTY).is_nonzero(),
            pending: self.mask(Flags::PENDING).is_nonzero(),
        }
    }
}

impl From<Flags> for u64 {
    ghost from_gives = { λ flags w. w ≡ flags.bits };

    fn from(flags: Flags) -> u64 {
        u64::from(flags.bits)
    }
}
