#![tactic(auto)]

// Many scripts in one stream, as oracle/README.md sets it out: each is followed by a line `%`, or by a line `%cut` where the newline before that
// line is no part of the script.
ghost use Rattle.std.specs.Prelude.{◌≡◌, ◌<◌, ◌≤◌, ◌==◌, length, MatchOption};
ghost use Rattle.std.specs.List.{position};
ghost use Rattle.packs.specs.Packs.{line_of, mark_of, unended_in, pair_in, second_in, first_in, open_in, rest_in, line_in, decided};

// Whether the line that a window begins with follows a script.
#[derive(Clone, Copy, PartialEq, Eq, Debug)]
pub enum Mark {
    // Not to be told before more is read.
    Unknown,
    Other,
    Plain,
    Cut,
}

// Where a run stands in a script: it goes on, or what is left of it is passed over, in a line or between lines.
#[derive(Clone, Copy, PartialEq, Eq, Debug)]
pub enum Place {
    Open,
    InLine,
    AtLine,
}

// What to do with a window.
#[derive(Clone, Copy, PartialEq, Eq, Debug)]
pub enum Act {
    Read,
    // A turn on so many bytes, and whether the script ends there.
    Turn(usize, bool),
    // The script is over, and the next begins behind so many bytes.
    Script(usize),
    // So many bytes are passed over; the line goes on, or another begins.
    Within(usize),
    Past(usize),
    Stop,
}

// What was read and not yet used, and whether no more will come.
#[derive(Clone, Copy)]
struct Window<'a> {
    bytes: &'a [u8],
    over: bool,
}

// The place of the first newline.
fn newline(w: &[u8]) -> Option<usize>
    ensures { result ≡ position (λ b. b == 10) w.now }
{
    w.iter().position(|b| *b == b'\n')
}

// The place behind the first newline.
fn line(w: &[u8]) -> Option<usize>
    ensures exact { result ≡ line_of w.now }
    ensures within { MatchOption result (Unit {0}) (λ n. (0 < n) × (n ≤ length w.now)) }
{
    let i = newline(w)?;
    Some(i + 1)
}

fn marked(w: &[u8]) -> Mark
    ensures { result ≡ mark_of w.now }
{
    match w {
        [b'%', b'\n', ..] => Mark::Plain,
        [b'%', _, _, _, b'\n', ..] => Mark::Cut,
        [] | [b'%'] | [b'%', _] | [b'%', _, _] | [b'%', _, _, _] => Mark::Unknown,
        _ => Mark::Other,
    }
}

// Two lines of 4,096 bytes and their newlines.
const MOST_BYTES: usize = 8194;

impl Window<'_> {
    fn unended(self) -> Act
        ensures { result ≡ unended_in self.entry.bytes.now self.entry.over }
    {
        if self.over {
            Act::Turn(self.bytes.len(), true)
        } else if self.bytes.len() > MOST_BYTES {
            Act::Turn(self.bytes.len(), false)
        } else {
            Act::Read
        }
    }

    fn pair(self, two: usize, mark: Mark) -> Act
        requires { 0 < two }
        ensures { result ≡ pair_in self.entry.over two mark }
    {
        match mark {
            Mark::Unknown if !self.over => Act::Read,
            Mark::Cut => Act::Turn(two - 1, true),
            Mark::Unknown | Mark::Other | Mark::Plain => Act::Turn(two, false),
        }
    }

    fn second(self, one: usize) -> Act
        requires { one ≤ length self.bytes.now }
        ensures { result ≡ second_in self.entry.bytes.now self.entry.over one }
    {
        let Some(more) = line(&self.bytes[one..]) else {
            return self.unended();
        };
        let two = one + more;
        self.pair(two, marked(&self.bytes[two..]))
    }

    fn first(self, one: usize, mark: Mark) -> Act
        requires one_in_bounds { one ≤ length self.bytes.now }
        requires one_nonzero { 0 < one }
        ensures { result ≡ first_in self.entry.bytes.now self.entry.over one mark }
    {
        match mark {
            Mark::Unknown => self.unended(),
            Mark::Other => self.second(one),
            Mark::Plain => Act::Turn(one, true),
            Mark::Cut => Act::Turn(one - 1, true),
        }
    }

    fn script(self, mark: Mark) -> Act
        ensures { result ≡ open_in self.entry.bytes.now self.entry.over mark }
    {
        match mark {
            Mark::Unknown => self.unended(),
            Mark::Other => match line(self.bytes) {
                Some(one) => self.first(one, marked(&self.bytes[one..])),
                None => self.unended(),
            },
            Mark::Plain => Act::Script(2),
            Mark::Cut => Act::Script(5),
        }
    }

    fn rest(self) -> Act
        ensures { result ≡ rest_in self.entry.bytes.now self.entry.over }
    {
        match line(self.bytes) {
            Some(n) => Act::Past(n),
            None if self.over => Act::Stop,
            None if self.bytes.is_empty() => Act::Read,
            None => Act::Within(self.bytes.len()),
        }
    }

    fn between(self, mark: Mark) -> Act
        ensures { result ≡ line_in self.entry.over mark }
    {
        match mark {
            Mark::Unknown if self.over => Act::Stop,
            Mark::Unknown => Act::Read,
            Mark::Other => Act::Within(0),
            Mark::Plain => Act::Script(2),
            Mark::Cut => Act::Script(5),
        }
    }
}

#[tactic(auto, unfolding(crate::specs::Packs::decided))]
pub fn decide(w: &[u8], over: bool, place: Place) -> Act
    ensures { result ≡ decided w.now over place }
{
    let window = Window { bytes: w, over };
    match place {
        Place::Open => window.script(marked(w)),
        Place::InLine => window.rest(),
        Place::AtLine => window.between(marked(w)),
    }
}
