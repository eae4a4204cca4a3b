#![tactic(auto)]

// A bounded stack of words, of which the first `len` are in use, the last of these on top: in a slice of any length, and as a struct of N words.
ghost use Rattle.std.specs.Prelude.{◌≡◌, ◌-◌, replicate};
ghost use Rattle.stack.specs.Stack.{pushed, pushed_len, popped, top};

// How many are in use then. A full stack stays as it is.
#[tactic(auto, unfolding(crate::specs::Stack::pushed_len))]
pub fn push(s: &mut [u64], len: u64, w: u64) -> u64
    ensures { (result ≡ pushed_len s.old len) × (s.new ≡ pushed s.old len w) }
{
    let k = len as usize;
    if k < s.len() {
        s[k] = w;
        len + 1
    } else {
        len
    }
}

// The word that was on top, and how many are left.
#[tactic(auto, unfolding(crate::specs::Stack::popped))]
pub fn pop(s: &[u64], len: u64) -> Option<(u64, u64)>
    ensures { result ≡ popped s.now len }
{
    let left = len.checked_sub(1)?;
    Some((primitive::words::at(s, left), left))
}

#[derive(Drop)]
pub struct Stack<const N: usize> {
    words: [u64; N],
    len: u64,
}

impl<const N: usize> Stack<N> {
    // With so many words on it that are nothing.
    pub fn blank(len: u64) -> Self
        ensures { result ≡ record { words = replicate N 0; len = len } }
    {
        Stack { words: [0; N], len }
    }

    // A full stack stays as it is.
    pub fn push(&mut self, w: u64)
        ensures { self.new ≡ record { words = pushed self.old.words self.old.len w; len = pushed_len self.old.words self.old.len } }
    {
        self.len = push(&mut self.words, self.len, w);
    }

    // The word that was on top, if there was one; it is off the stack then.
    #[tactic(auto, using(crate::proofs::StackLaws::popped_top))]
    pub fn pop(&mut self) -> Option<u64>
        ensures { (result ≡ top self.old.words self.old.len) × (self.new ≡ record self.old { len = self.old.len - 1 }) }
    {
        let (w, left) = pop(&self.words, self.len)?;
        self.len = left;
        Some(w)
    }
}
