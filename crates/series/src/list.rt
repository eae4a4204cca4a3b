// The list of commands: for each the number of its words, then these.
ghost use Rattle.std.specs.Prelude.{◌≡◌};
ghost use Rattle.sequencing.specs.Lists.{next_in};

use formula::cells::natural;
use sequencing::list::Next;

pub fn head(list: &[i64]) -> Next
    ensures { result ≡ next_in list.now }
{
    match list {
        [] => Next::Over,
        [k, rest @ ..] => match natural(*k) {
            Some(words) if words as usize <= rest.len() => Next::Words(words as usize),
            _ => Next::Bad,
        },
    }
}
