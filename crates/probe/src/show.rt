// What is printed: an answer and every word of the tables, a line each.
use crate::read::Stop;
use crate::word::Word;
use engine::command::Answer;
use std::fmt::Write;
use std::{fmt, io};
use stream::Outlet;

// A buffer before the standard output.
#[derive(Drop)]
pub(crate) struct Page<'a, P, W> {
    rt: &'a P,
    to: Outlet<'a, W>,
}

impl<'a, P: Eprint, W: io::Write> Page<'a, P, W> {
    pub(crate) fn new(rt: &'a P, to: Outlet<'a, W>) -> Self {
        Page { rt, to }
    }

    pub(crate) fn answer(&mut self, answer: Answer) -> fmt::Result {
        let Answer { code, value, runs } = answer;
        write!(self.to, "code={code}\nvalue={value}\nruns={runs}\n")
    }

    pub(crate) fn table<T: Word>(&mut self, key: &str, t: &[T]) -> fmt::Result {
        self.to.spill(self.rt);
        self.to.write_str(key)?;
        for (i, word) in t.iter().enumerate() {
            self.to.spill(self.rt);
            if i > 0 {
                self.to.write_str(" ")?;
            }
            write!(self.to, "{word}")?;
        }
        self.to.write_str("\n")
    }

    // Whether all fitted, and was written.
    pub(crate) fn sent(&mut self, whole: fmt::Result) -> Result<(), Stop> {
        self.to.flush(self.rt);
        if whole.is_ok() && self.to.sink.ok {
            Ok(())
        } else {
            Err(Stop::Unwritten)
        }
    }
}
