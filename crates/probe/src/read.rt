// Blocks, read from standard input: numbers with white space between.
use crate::word::Word;
use std::io::Read;
use stream::Source;

// Why a run ends.
#[derive(Clone, Copy, PartialEq, Eq, Debug)]
pub(crate) enum Stop {
    // Nothing but white space was left.
    Ended,
    // No number, none that fits, or a table that is longer than the room for it.
    Misread,
    // It is told already.
    Unwritten,
}

// The lengths that a block begins with.
#[derive(Clone, Copy)]
pub(crate) struct Sizes {
    pub nodes: usize,
    pub links: usize,
    pub values: usize,
    pub cells: usize,
    pub log: usize,
    pub words: usize,
}

// No number of a block has more bytes.
const MOST_BYTES: usize = 20;

// No table has more words.
const MOST_WORDS: u64 = 100000;

// The words of what is read.
#[derive(Drop)]
pub(crate) struct Words<'a, R> {
    from: Source<'a, R>,
}

impl<'a, R: Read + Drop> Words<'a, R> {
    pub(crate) fn new(from: Source<'a, R>) -> Self {
        Words { from }
    }

    // The next byte that is no white space.
    fn visible(&mut self, rt: &impl Eprint) -> Option<u8> {
        for _ in 0..u64::MAX {
            let b = self.from.next(rt)?;
            if b > b' ' {
                return Some(b);
            }
        }
        None
    }

    // The bytes up to the next white space, as many as `text` holds; answers how many.
    fn piece(&mut self, rt: &impl Eprint, text: &mut [u8]) -> usize {
        let mut next = self.visible(rt);
        for (i, place) in text.iter_mut().enumerate() {
            match next {
                Some(b) if b > b' ' => *place = b,
                _ => return i,
            }
            next = self.from.next(rt);
        }
        text.len()
    }

    fn word<T: Word>(&mut self, rt: &impl Eprint) -> Result<T, Stop> {
        let mut text = [0; 24];
        match self.piece(rt, &mut text) {
            0 => Err(Stop::Ended),
            n if n > MOST_BYTES => Err(Stop::Misread),
            n => T::spelled(&text[..n]).ok_or(Stop::Misread),
        }
    }

    fn fill<T: Word>(&mut self, rt: &impl Eprint, t: &mut [T]) -> Result<(), Stop> {
        for place in t {
            *place = self.word(rt).or(Err(Stop::Misread))?;
        }
        Ok(())
    }

    // A table of n words, at the front of the room for it.
    pub(crate) fn table<'t, T: Word>(
        &mut self,
        rt: &impl Eprint,
        room: &'t mut [T],
        n: usize,
    ) -> Result<&'t mut [T], Stop> {
        let t = room.get_mut(..n).ok_or(Stop::Misread)?;
        self.fill(rt, t)?;
        Ok(t)
    }

    pub(crate) fn lengths(&mut self, rt: &impl Eprint) -> Result<Sizes, Stop> {
        let nodes = length(self.word(rt)?);
        let mut rest = [0; 5];
        self.fill(rt, &mut rest)?;
        let [links, values, cells, log, words] = rest.map(length);
        Ok(Sizes {
            nodes,
            links,
            values,
            cells,
            log,
            words,
        })
    }
}

fn length(k: u64) -> usize {
    k.min(MOST_WORDS) as usize
}
