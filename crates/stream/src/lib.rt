#![tactic(auto)]

// Readers and writers: what was read and not yet used, and all of what is to be written. What the system reads or writes, no contract can say.
ghost use Rattle.std.specs.Prelude.{length, ◌+◌, ◌++◌, ◌^◌, ◌<◌, ◌≤◌, min, max, true, false, ◌≡◌, take, IfSome, IsOk, OnErr};
ghost use Rattle.stream.specs.Windows.{Cut, Front, Filled, Spilled, Taken, unread};

use std::env::{Env, FillError};
use std::fmt::InlineText;
use std::io::{Read, Write};
use std::{fmt, io};

// A reader, and the buffer that it is read into: the unread bytes go from `at` up to `end`. `over`: no more will come.
#[derive(Drop)]
pub struct Source<'a, R> {
    pub from: R,
    pub buf: &'a mut [u8],
    pub at: usize,
    pub end: usize,
    pub over: bool,
}

impl<'a, R: Read> Source<'a, R> {
    // Nothing is read yet.
    pub fn new(from: R, buf: &'a mut [u8]) -> Source<'a, R>
        ensures { result ≡ record { from = from; buf = buf.entry; at = 0; end = 0; over = false } }
    {
        Source {
            from,
            buf,
            at: 0,
            end: 0,
            over: false,
        }
    }

    // What is unread, as far as the buffer goes.
    #[tactic(auto, using(crate::proofs::Fronts::part_of))]
    pub fn unread(&self) -> &[u8]
        ensures { result.now ≡ unread self.now.buf.now self.now.at self.now.end }
    {
        let end = self.end.min(self.buf.len());
        let at = self.at.min(end);
        &self.buf[at..end]
    }

    // `used` bytes more are used, but no more than there are.
    pub fn advance(&mut self, used: usize)
        ensures { self.new ≡ record self.old { at = min (self.old.at + used) (max self.old.at self.old.end) } }
    {
        if self.at < self.end {
            self.at += used.min(self.end - self.at);
        }
    }

    // Moves what is unread to the front, and says how many bytes that is.
    fn shift(&mut self) -> usize
        ensures same { self.new.buf.ghost_name ≡ self.old.buf.ghost_name }
        ensures long { length self.new.buf.now ≡ length self.old.buf.now }
        ensures front { Front self.old.buf.now self.old.at self.old.end result self.new.buf.now }
    {
        let end = self.end.min(self.buf.len());
        let at = self.at.min(end);
        self.buf.copy_within(at..end, 0);
        end - at
    }

    // Moves what is unread to the front and reads once more behind it. An error is told on standard error, and the input is over
    // then, as at its end and where there is no room.
    pub fn fill(&mut self, rt: &impl Eprint)
        ensures same { self.new.buf.ghost_name ≡ self.old.buf.ghost_name }
        ensures long { length self.new.buf.now ≡ length self.old.buf.now }
        ensures filled { Filled self.old.buf.now self.old.at self.old.end self.new.at self.new.end self.new.over self.new.buf.now }
    {
        let n = self.shift();
        self.at = 0;
        self.end = n;
        self.over = true;
        let buf = &mut *self.buf;
        if n < buf.len() {
            match self.from.read(&mut buf[n..]) {
                Ok(k) => {
                    self.end = n + k;
                    self.over = k == 0;
                }
                Err(e) => {
                    fail(rt, "read", e);
                }
            }
        }
    }

    // The next byte: the first that is unread, or one more read.
    pub fn next(&mut self, rt: &impl Eprint) -> Option<u8>
        ensures same { self.new.buf.ghost_name ≡ self.old.buf.ghost_name }
        ensures long { length self.new.buf.now ≡ length self.old.buf.now }
        ensures taken { Taken self.old.buf.now self.old.at self.old.end result self.new.at self.new.end self.new.buf.now }
    {
        if self.end.min(self.buf.len()) <= self.at && !self.over {
            self.fill(rt);
        }
        let byte = *self.unread().first()?;
        self.at += 1;
        Some(byte)
    }
}

// The text of a system's error, without the number that std writes behind it.
fn unnumbered(text: &str) -> &str {
    match text.split_once(" (os error ") {
        Some((before, _)) => before,
        None => text,
    }
}

// What failed, and the error's text, as a line on standard error. Where that can't be written there is nobody to tell. It answers no, as
// what failed does: this is its promise, and stays.
pub fn fail(rt: &impl Eprint, what: &str, error: io::Error) -> bool
    ensures { result ≡ false }
{
    let all = InlineText::<256>::of(&error);
    let text = unnumbered(all.as_str());
    let _ = eprintln!(rt; "{what}: {text}");
    false
}

// Writes the first n bytes. An error is told on standard error; the answer is no then, and where there are not so many bytes:
// this promise speaks of n, so the length stays beside the buffer.
pub fn send<W: Write>(rt: &impl Eprint, to: &mut W, out: &[u8], n: usize) -> bool
    ensures { length out.now < n → result ≡ false }
{
    if out.len() < n {
        return false;
    }
    match to.write_all(&out[..n]) {
        Ok(()) => true,
        Err(e) => fail(rt, "write", e),
    }
}

// How much of a buffer is filled, and whether all that left it was written.
#[derive(Clone, Copy)]
pub struct Sink {
    pub at: usize,
    pub ok: bool,
}

// A writer, and the buffer that is filled before it is written. A failed write is told, and what comes behind it is written nevertheless, so
// the sink keeps that, and no error is handed on.
#[derive(Drop)]
pub struct Outlet<'a, W> {
    pub to: W,
    pub out: &'a mut [u8],
    pub sink: Sink,
}

impl<'a, W: Write> Outlet<'a, W> {
    // The buffer is empty yet.
    pub fn new(to: W, out: &'a mut [u8]) -> Outlet<'a, W>
        ensures { result ≡ record { to = to; out = out.entry; sink = record { at = 0; ok = true } } }
    {
        Outlet {
            to,
            out,
            sink: Sink { at: 0, ok: true },
        }
    }

    // Writes all that is there.
    pub fn flush(&mut self, rt: &impl Eprint)
        ensures same { self.new.out.ghost_name ≡ self.old.out.ghost_name }
        ensures out { self.new.out.now ≡ self.old.out.now }
        ensures at { self.new.sink.at ≡ 0 }
    {
        let Sink { at, ok } = self.sink;
        let out = &mut *self.out;
        let sent = send(rt, &mut self.to, out, at);
        self.sink = Sink {
            at: 0,
            ok: ok && sent,
        };
    }

    // Writes what is there unless room for 256 bytes is left.
    pub fn spill(&mut self, rt: &impl Eprint)
        ensures same { self.new.out.ghost_name ≡ self.old.out.ghost_name }
        ensures out { self.new.out.now ≡ self.old.out.now }
        ensures spilled { Spilled (length self.old.out.now) self.old.sink.at self.new.sink.at }
    {
        if self.out.len().saturating_sub(256) < self.sink.at || self.out.len() < 256 {
            self.flush(rt);
        }
    }
}

// Puts text into the buffer. What finds no room is left out, and the answer is an error then, and only then.
impl<W: Write> fmt::Write for Outlet<'_, W> {
    ghost write_str_gives = { λ s bs t. (t.out.ghost_name ≡ s.out.ghost_name) × (t.sink.ok ≡ s.sink.ok) × (t.sink.at ≡ s.sink.at + length bs) × (take t.sink.at t.out.now ≡ take s.sink.at s.out.now ++ bs) };

    fn write_str(&mut self, s: &str) -> fmt::Result
        ensures ok { IsOk result → (self.new.out.ghost_name ≡ self.old.out.ghost_name) × (self.new.sink.ok ≡ self.old.sink.ok) × (self.new.sink.at ≡ self.old.sink.at + length s.now) × (take self.new.sink.at self.new.out.now ≡ take self.old.sink.at self.old.out.now ++ s.now) }
        ensures full { OnErr result (length self.old.out.now < self.old.sink.at + length s.now) }
        ensures cut { OnErr result (Cut self.old.out.now self.old.sink.at s.now self.new.sink.at self.new.out.now) }
        ensures room { IsOk result → self.old.sink.at + length s.now ≤ length self.old.out.now }
        ensures long { length self.new.out.now ≡ length self.old.out.now }
        ensures kept { self.new.sink.ok ≡ self.old.sink.ok }
        ensures same { self.new.out.ghost_name ≡ self.old.out.ghost_name }
    {
        let text = s.as_bytes();
        let at = self.sink.at;
        let out = &mut *self.out;
        if out.len() < at {
            return Err(fmt::Error);
        }
        let n = text.len().min(out.len() - at);
        let end = at + n;
        out[at..end].copy_from_slice(&text[..n]);
        self.sink.at = end;
        if n < text.len() {
            return Err(fmt::Error);
        }
        Ok(())
    }
}

// The number below 10,000 that digits spell.
fn spelled(text: &[u8]) -> Option<u64>
    ensures { IfSome result (λ k. k < 10000) }
{
    if text.is_empty() {
        return None;
    }
    let mut k = 0;
    for b in text {
        match b {
            b'0'..=b'9' if k < 1000 => k = k * 10 + u64::from(*b - b'0'),
            _ => return None,
        }
    }
    Some(k)
}

// The number below 10,000 that argument i of the program spells.
pub fn number_argument(rt: &impl Env, i: usize) -> Option<u64>
    ensures { IfSome result (λ k. k < 10000) }
{
    let mut text = [0u8; 16];
    let n = rt.arg(i, &mut text).ok()?;
    spelled(&text[..n])
}

// Argument i at the start of a buffer: its length, where it is there and fits.
pub fn argument(rt: &impl Env, i: usize, buf: &mut [u8]) -> Option<usize>
    ensures { IfSome result (λ n. n ≤ length buf.new) }
{
    rt.arg(i, buf).ok()
}

fn is_there(rt: &impl Env, i: usize) -> bool {
    !matches!(rt.arg(i, &mut [0u8; 1]), Err(FillError::NotPresent))
}

// How many arguments the program was started with, its own name among them.
pub fn argument_count(rt: &impl Env) -> usize
    ensures { result < 2 ^ 64 }
{
    (0..usize::MAX)
        .find(|i| !is_there(rt, *i))
        .unwrap_or(usize::MAX)
}
