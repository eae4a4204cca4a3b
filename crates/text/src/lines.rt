// A pair of lines, read from a window on the input into lent words.
ghost use Rattle.std.specs.Prelude.{◌≡◌, ◌==◌, ◌∷◌, length};
ghost use Rattle.std.specs.List.{position};
ghost use Rattle.spelling.specs.Lines.{newline, space, end_of, command_line, args_line, pieces, each_spelled, from_second};
ghost use Rattle.spelling.specs.Pairs.{count_from, worths, arg_words, taken, held, into, pair_in};
ghost use Rattle.spelling.specs.Buffers.{buffer, put};

use crate::answers::push;
use crate::numbers::number;
use spelling::lines::{End, Found};

// The bytes of a line at most, its newline not counted.
const LONGEST: usize = 4096;

// The place of the first newline.
fn newline(s: &[u8]) -> Option<usize>
    ensures { result ≡ position (λ b. b == newline) s.now }
{
    s.iter().position(|b| *b == b'\n')
}

pub fn line_end(s: &[u8]) -> End
    ensures { result ≡ end_of s.now }
{
    match newline(s) {
        Some(i) if i <= LONGEST => End::At(i),
        None if s.len() <= LONGEST => End::Unended,
        _ => End::Long,
    }
}

// The one number of a line `cmd=N`.
pub fn command_line(s: &[u8]) -> Option<i64>
    ensures { result ≡ command_line s.now }
{
    number(s.strip_prefix(b"cmd=")?)
}

// The numbers of s, one space between; an empty s is no number.
fn count_of(s: &[u8]) -> Option<usize>
    ensures { result ≡ count_from 0 (each_spelled (pieces space s.now)) }
{
    let mut n = 0;
    for piece in s.split(|b| *b == b' ') {
        number(piece)?;
        n += 1;
    }
    Some(n)
}

// How many numbers a line `args=..` has.
pub fn args_line(s: &[u8]) -> Option<usize>
    ensures { result ≡ count_from 0 (args_line s.now) }
{
    match s.strip_prefix(b"args=")? {
        [] => Some(0),
        rest => count_of(rest),
    }
}

// The numbers of s, one space between, from words[from] on; 0 where there is none.
fn store(s: &[u8], words: &mut [i64], from: usize)
    ensures { words.new ≡ (put (buffer words.old from) (worths (pieces space s.now))).held }
{
    let mut to = from;
    for piece in s.split(|b| *b == b' ') {
        to = push(words, to, number(piece).unwrap_or(0));
    }
}

// The words of a pair: its code, and the numbers of its second line.
fn store_pair(words: &mut [i64], code: i64, s: &[u8])
    ensures { words.new ≡ (put (buffer words.old 0) (code ∷ arg_words s.now)).held }
{
    let to = push(words, 0, code);
    if s.len() > 5 {
        store(&s[5..], words, to);
    }
}

// The second line, once the first gave the code.
fn second(code: i64, s: &[u8], words: &mut [i64]) -> Found
    ensures { taken result words.new ≡ into words.old (held (length words.old) (from_second code s.now (end_of s.now))) }
{
    match line_end(s) {
        End::Long => Found::Unreadable,
        End::Unended => Found::Short,
        End::At(j) => match args_line(&s[..j]) {
            Some(n) if n < words.len() => {
                store_pair(words, code, &s[..j]);
                Found::Pair {
                    behind: s.len() - j - 1,
                    count: n + 1,
                }
            }
            _ => Found::Unreadable,
        },
    }
}

// The first pair of the window. Its words are in `words` if it was read; else `words` is as it was. A pair of more words than are lent can't be read.
pub fn pair(window: &[u8], words: &mut [i64]) -> Found
    ensures { taken result words.new ≡ pair_in window.now words.old }
{
    match line_end(window) {
        End::Long => Found::Unreadable,
        End::Unended => Found::Short,
        End::At(i) => match command_line(&window[..i]) {
            Some(code) => second(code, &window[i + 1..], words),
            None => Found::Unreadable,
        },
    }
}
