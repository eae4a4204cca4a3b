// Strict decimal numbers, read: no leading zeros, no `+`, no `-0`, within i64.
ghost use Rattle.std.specs.Prelude.{◌≡◌};
ghost use Rattle.spelling.specs.Numbers.{digits_from, natural, within, plus, minus, spelled};

// No i64 is larger in size.
const LARGEST: u64 = 1 << 63;

// The digits from the first on. Nothing over 2^63 is told.
#[tactic(auto, using(spelling::proofs::NumberLaws::digits_none, spelling::proofs::NumberLaws::digits_over, spelling::proofs::NumberLaws::digits_more, spelling::proofs::NumberLaws::digits_end), unfolding(spelling::specs::Numbers::within, spelling::specs::Numbers::digits_from))]
fn digits_of(s: &[u8]) -> Option<u64>
    ensures { result ≡ within (digits_from 0 s.now) }
{
    let mut v: u64 = 0;
    for b in s {
        if !b.is_ascii_digit() || LARGEST / 10 < v {
            return None;
        }
        v = v * 10 + u64::from(*b - b'0');
    }
    (v <= LARGEST).then_some(v)
}

// At least one digit, and a 0 leads nothing but itself.
#[tactic(auto, using(spelling::proofs::NumberLaws::natural_empty, spelling::proofs::NumberLaws::natural_zero, spelling::proofs::NumberLaws::natural_leads, spelling::proofs::NumberLaws::natural_digits), unfolding(spelling::specs::Numbers::within, spelling::specs::Numbers::natural))]
pub fn magnitude(s: &[u8]) -> Option<u64>
    ensures { result ≡ within (natural s.now) }
{
    match s {
        [b'0'] => Some(0),
        [] | [b'0', ..] => None,
        _ => digits_of(s),
    }
}

#[tactic(auto, unfolding(spelling::specs::Numbers::plus))]
fn positive(d: Option<u64>) -> Option<i64>
    ensures { result ≡ plus d }
{
    i64::try_from(d?).ok()
}

// -0 is no number, and -2^63 is one.
#[tactic(auto, unfolding(spelling::specs::Numbers::minus))]
fn negative(d: Option<u64>) -> Option<i64>
    ensures { result ≡ minus d }
{
    match d? {
        0 => None,
        n => 0i64.checked_sub_unsigned(n),
    }
}

// A strict decimal.
pub fn number(s: &[u8]) -> Option<i64>
    ensures { result ≡ spelled s.now }
{
    match s {
        [b'-', rest @ ..] => negative(magnitude(rest)),
        _ => positive(magnitude(s)),
    }
}
