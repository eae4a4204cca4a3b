// The slots of the link table: which are live, and the list of the free ones. Its head is a word of row 0, and it runs along NEXT_DEP, the last freed first.
ghost use Rattle.std.specs.Prelude.{◌≡◌};
ghost use Rattle.linking.specs.Free.{fresh, is_live_slot, live, taken, released};

use primitive::rows::{FREE, LINK, LIVE, NEXT_DEP};
use primitive::slots::Slot;
use primitive::{slots, words};

#[tactic(auto, unfolding(linking::specs::Free::is_live_slot))]
pub fn is_live(links: &[u64], s: u64) -> bool
    ensures { result ≡ is_live_slot links.now s }
{
    words::get(links, LINK, s, LIVE) != 0
}

// How many slots are live.
pub fn live(links: &[u64]) -> u64
    ensures { result ≡ live links.now }
{
    let rows = (links.len() / 8) as u64;
    (0..rows).filter(|n| is_live(links, *n)).count() as u64
}

// The word of the first free slot, which is live then and off the list; 0 where no slot is free, and nothing changes. A word and no Slot: the tables keep it as it is,
// and to make it again from a slot is a sum that could wrap.
#[tactic(auto, unfolding(linking::specs::Free::taken))]
pub fn take(links: &mut [u64]) -> u64
    ensures { fresh result links.new ≡ taken links.old }
{
    let w = words::at(links, FREE);
    let Slot::At(s) = slots::open(w) else {
        return 0;
    };
    let next = words::get(links, LINK, s, NEXT_DEP);
    words::store(links, LINK, s, LIVE, 1);
    words::put(links, FREE, next);
    w
}

// A live slot goes to the front of the list. One that is not live is left alone, so none is freed twice, and the sum cannot wrap: a live slot lies in the table.
#[tactic(auto, using(linking::proofs::FreeLaws::live_in, linking::proofs::FreeLaws::released_live, linking::proofs::FreeLaws::released_dead), unfolding(linking::specs::Free::released))]
pub fn release(links: &mut [u64], s: u64)
    ensures { links.new ≡ released links.old s }
{
    if is_live(links, s) {
        let head = words::at(links, FREE);
        words::store(links, LINK, s, LIVE, 0);
        words::store(links, LINK, s, NEXT_DEP, head);
        words::put(links, FREE, s + 1);
    }
}
