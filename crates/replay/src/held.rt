// Stored answers, and what a run through a pack's scripts has found of them.
use script::packed::Step;
use std::io::Read;
use stream::Source;

// What was counted, and whether all was the same so far.
#[derive(Clone, Copy)]
pub(crate) struct Tally {
    pub scripts: u64,
    pub answers: u64,
    pub same: bool,
}

// Counts end here.
const MOST: u64 = 1_000_000_000;

impl Tally {
    // Nothing is compared yet.
    pub(crate) fn new() -> Tally {
        Tally {
            scripts: 0,
            answers: 0,
            same: true,
        }
    }

    // Counts what a step came to.
    pub(crate) fn count(&mut self, what: Step) {
        match what {
            Step::Next(_) => self.scripts = self.scripts.saturating_add(1).min(MOST),
            Step::Ended(0) | Step::Read | Step::Within(_) | Step::Past(_) | Step::Stop => {}
            Step::Answered { .. } | Step::Ended(_) => {
                self.answers = self.answers.saturating_add(1).min(MOST);
            }
        }
    }
}

// Whether the next stored bytes are these.
fn is_next<R: Read>(rt: &impl Eprint, kept: &mut Source<R>, bytes: &[u8]) -> bool {
    for b in bytes {
        if kept.next(rt) != Some(*b) {
            return false;
        }
    }
    true
}

// Whether what a step says is what is stored next; at the end of the scripts no stored answer may be left.
pub(crate) fn is_kept<R: Read>(
    rt: &impl Eprint,
    kept: &mut Source<R>,
    out: &[u8],
    what: Step,
) -> bool {
    match what {
        Step::Answered { bytes: n, .. } | Step::Ended(n) => match out.get(..n) {
            Some(answer) => is_next(rt, kept, answer),
            None => false,
        },
        Step::Next(_) => is_next(rt, kept, b"%\n"),
        Step::Stop => kept.next(rt).is_none(),
        Step::Read | Step::Within(_) | Step::Past(_) => true,
    }
}
