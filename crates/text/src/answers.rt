// The lines of an answer, put into a lent buffer; what finds no room is left out.
ghost use Rattle.std.specs.Prelude.{◌≡◌, ℤ, pos};
ghost use Rattle.spelling.specs.Buffers.{buffer, put, pushed};
ghost use Rattle.spelling.specs.Decimals.{glyph, digits, decimal};
ghost use Rattle.spelling.specs.Answers.{line, row, rows, answer, unreadable_answer};

// One more at out[at]; answers the next place. Slice and place stay two: a struct of them would hold a `&mut`, and each contract would need a
// second clause, that it is the same slice still (`self.new.held.ghost_name ≡ self.old.held.ghost_name`).
#[tactic(auto, unfolding(spelling::specs::Buffers::pushed))]
pub fn push<T: Copy>(out: &mut [T], at: usize, x: T) -> usize
    ensures { buffer out.new result ≡ pushed (buffer out.old at) x }
{
    if at < out.len() {
        out[at] = x;
        at + 1
    } else {
        out.len()
    }
}

#[tactic(auto, unfolding(spelling::specs::Buffers::put))]
pub fn put_all(out: &mut [u8], at: usize, s: &[u8]) -> usize
    ensures { buffer out.new result ≡ put (buffer out.old at) s.now }
{
    let mut to = at;
    for b in s {
        to = push(out, to, *b);
    }
    to
}

// The last digit.
fn glyph_of(n: u64) -> u8
    ensures { result ≡ glyph n }
{
    b'0' + (n % 10) as u8
}

// At most `most` digits, the first first.
fn put_digits(out: &mut [u8], at: usize, n: u64, most: u64) -> usize
    ensures { buffer out.new result ≡ put (buffer out.old at) (digits most n) }
{
    if most == 0 {
        return at;
    }
    if n < 10 {
        return push(out, at, glyph_of(n));
    }
    let to = put_digits(out, at, n / 10, most - 1);
    push(out, to, glyph_of(n))
}

#[tactic(auto, unfolding(spelling::specs::Buffers::put, spelling::specs::Decimals::decimal))]
pub fn put_natural(out: &mut [u8], at: usize, n: u64) -> usize
    ensures { buffer out.new result ≡ put (buffer out.old at) (decimal (pos n)) }
{
    put_digits(out, at, n, 20)
}

#[tactic(auto, unfolding(spelling::specs::Buffers::put, spelling::specs::Decimals::decimal))]
pub fn put_integer(out: &mut [u8], at: usize, v: i64) -> usize
    ensures { buffer out.new result ≡ put (buffer out.old at) (decimal v) }
{
    let to = if v < 0 { push(out, at, b'-') } else { at };
    put_natural(out, to, v.unsigned_abs())
}

// A number that is written in decimal.
pub trait Decimal {
    ghost value: { Self → ℤ };

    fn put_decimal(self, out: &mut [u8], at: usize) -> usize
        ensures { buffer out.new result ≡ put (buffer out.old at) (decimal (value self)) };
}

impl Decimal for u64 {
    ghost value = { pos };

    fn put_decimal(self, out: &mut [u8], at: usize) -> usize {
        put_natural(out, at, self)
    }
}

impl Decimal for i64 {
    ghost value = { λ v. v };

    fn put_decimal(self, out: &mut [u8], at: usize) -> usize {
        put_integer(out, at, self)
    }
}

#[tactic(auto, using(spelling::proofs::AnswerLaws::put_line), unfolding(spelling::specs::Buffers::put, spelling::specs::Answers::line))]
pub fn put_line<N: Decimal>(out: &mut [u8], at: usize, key: &[u8], n: N) -> usize
    ensures { buffer out.new result ≡ put (buffer out.old at) (line key.now (N.value n)) }
{
    let to = put_all(out, at, key);
    let end = n.put_decimal(out, to);
    push(out, end, b'\n')
}

// A line `run=E:V`.
#[tactic(auto, using(spelling::proofs::AnswerLaws::put_row), unfolding(spelling::specs::Buffers::put, spelling::specs::Answers::row))]
fn put_row(out: &mut [u8], at: usize, e: i64, v: i64) -> usize
    ensures { buffer out.new result ≡ put (buffer out.old at) (row e v) }
{
    let to = put_all(out, at, b"run=");
    let mid = put_integer(out, to, e);
    let next = push(out, mid, b':');
    let end = put_integer(out, next, v);
    push(out, end, b'\n')
}

// The first rows of the log.
#[tactic(auto, using(spelling::proofs::AnswerLaws::put_rows_none, spelling::proofs::AnswerLaws::put_rows_short, spelling::proofs::AnswerLaws::put_rows_more), unfolding(spelling::specs::Buffers::put, spelling::specs::Answers::rows))]
fn put_rows(out: &mut [u8], at: usize, log: &[i64], runs: u64) -> usize
    ensures { buffer out.new result ≡ put (buffer out.old at) (rows runs log.now) }
{
    let mut to = at;
    let mut rest = log;
    for _ in 0..runs {
        let [e, v, more @ ..] = rest else {
            return to;
        };
        to = put_row(out, to, *e, *v);
        rest = more;
    }
    to
}

// An answer from out[0] on; answers how many bytes.
#[tactic(auto, using(spelling::proofs::AnswerLaws::put_answer), unfolding(spelling::specs::Buffers::put, spelling::specs::Answers::answer))]
pub fn put_answer(out: &mut [u8], code: u64, value: i64, runs: u64, log: &[i64]) -> usize
    ensures { buffer out.new result ≡ put (buffer out.old 0) (answer code value runs log.now) }
{
    let a = put_line(out, 0, b"code=", code);
    let b = put_line(out, a, b"value=", value);
    let c = put_line(out, b, b"runs=", runs);
    put_rows(out, c, log, runs)
}

// The answer to a pair that can't be read: refusal 2, value 0, no runs.
#[tactic(auto, unfolding(spelling::specs::Buffers::put, spelling::specs::Answers::unreadable_answer))]
pub fn put_unreadable(out: &mut [u8]) -> usize
    ensures { buffer out.new result ≡ put (buffer out.old 0) unreadable_answer }
{
    put_answer(out, 2, 0, 0, &[])
}
