// Signals: the pending value becomes the current one. After update_signal and the first half of signal_get_oper.
ghost use Rattle.std.specs.Prelude.{◌≡◌, List, ℕ};
ghost use Rattle.reading.specs.Tables.{state, told};
ghost use Rattle.reading.specs.Steps.{updated_signal, refreshed_signal};

use crate::places;
use crate::wakes::wake;
use flags::Flags;
use marks::nodes::{flags, set_flags};

// Whether that changed it.
#[tactic(auto, using(values::proofs::ValueLaws::eq_same), unfolding(reading::specs::Steps::updated_signal))]
pub fn update_signal(nodes: &mut [u64], values: &mut [i64], n: u64) -> bool
    ensures { (l : List ℕ) → told result (state nodes.new l values.new) ≡ updated_signal (state nodes.old l values.old) n }
{
    set_flags(nodes, n, Flags::MUTABLE);
    let old = places::current(values, n);
    let new = places::pending(values, n);
    places::keep_current(values, n, new);
    old != new
}

pub fn refresh_signal(nodes: &mut [u64], links: &[u64], values: &mut [i64], n: u64)
    ensures { state nodes.new links.now values.new ≡ refreshed_signal (state nodes.old links.now values.old) n }
{
    if flags(nodes, n).has(Flags::DIRTY) && update_signal(nodes, values, n) {
        wake(nodes, links, n);
    }
}
