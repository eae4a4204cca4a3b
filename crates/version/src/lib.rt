#![tactic(auto)]

// The evaluation cycle, and the version of a link: the cycle at which it was last used.
ghost use Rattle.std.specs.Prelude.{◌≡◌, ◌+◌, ◌%◌, ◌^◌};

// Its default is cycle 0.
#[derive(Clone, Copy, PartialEq, Eq, Default)]
pub struct Version {
    pub cycle: u64,
}

impl Version {
    // The next cycle; after the greatest comes 0.
    pub fn increment(self) -> Version
        ensures { result.cycle ≡ (self.cycle + 1) % 2 ^ 64 }
    {
        Version {
            cycle: self.cycle.wrapping_add(1),
        }
    }
}
