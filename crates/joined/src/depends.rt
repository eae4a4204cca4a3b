// What depends on what, and the link of what is owned.
ghost use Rattle.std.specs.Prelude.{◌≡◌, ℕ, Bool};
ghost use Rattle.primitive.specs.Words.{node, link, NEXT-DEP};
ghost use Rattle.counting.specs.Counts.{slot_room};
ghost use Rattle.lists.specs.Each.{along};
ghost use Rattle.resting.specs.Depends.{reads_kind, owns_kind, owner_is, may_depend, depends_at, owned_on, owned_at};

use counts::room;
use formula::legal;
use primitive::kinds::Kind;
use primitive::rows::{DEP, DEPS, GONE, KIND, LINK, NEXT_DEP, NEXT_SUB, NODE, OWNER, SUB, SUBS};
use primitive::slots::Slot;
use primitive::{slots, words};

// Whether node n is of a kind that reads: these have a formula.
pub fn reads(nodes: &[u64], n: u64) -> bool
    ensures { result ≡ reads_kind (node nodes.now n KIND) }
{
    matches!(
        Kind::of_word(words::get(nodes, NODE, n, KIND)),
        Some(Kind::Computed | Kind::Effect)
    )
}

// Whether node n is of a kind that owns.
fn owns(nodes: &[u64], n: u64) -> bool
    ensures { result ≡ owns_kind (node nodes.now n KIND) }
{
    matches!(
        Kind::of_word(words::get(nodes, NODE, n, KIND)),
        Some(Kind::Effect | Kind::Scope)
    )
}

// Whether an owner's word names node n.
#[tactic(auto, unfolding(resting::specs::Depends::owner_is))]
fn owner_is(w: u64, n: u64) -> bool
    ensures { result ≡ owner_is w n }
{
    matches!(slots::open(w), Slot::At(o) if o == n)
}

// Whether node n may depend on node d. A node's rank is its number.
#[tactic(auto, unfolding(resting::specs::Depends::may_depend))]
fn may_depend(nodes: &[u64], n: u64, d: u64) -> bool
    ensures { result ≡ may_depend nodes.now n d }
{
    if legal::readable(nodes, d) {
        reads(nodes, n) && d < n
    } else {
        owns(nodes, n) && owner_is(words::get(nodes, NODE, d, OWNER), n)
    }
}

// Whether each link of the dependency list from the word w on goes to a node that passes the test.
// No `primitive::walk::Walk`: it goes over as many slots as the table has rows, and the definitions of resting over one less, the header's.
pub(crate) fn every_link<F: Fn(u64) -> bool>(links: &[u64], w: u64, test: F) -> bool
    requires { F.IsAlwaysCallable test }
    ensures { (p : ℕ → Bool) → ((d : ℕ) (r : Bool) → F.post test d r → r ≡ p d)
        → result ≡ along (λ x. link links.now x NEXT-DEP) (λ x. p (link links.now x DEP)) (slot_room links.now) w }
{
    let slots = room::slot_room(links);
    let mut at = w;
    for _link in 0..slots {
        let Slot::At(x) = slots::open(at) else {
            return true;
        };
        if !test(words::get(links, LINK, x, DEP)) {
            return false;
        }
        at = words::get(links, LINK, x, NEXT_DEP);
    }
    true
}

pub fn depends_at(nodes: &[u64], links: &[u64], n: u64) -> bool
    ensures { result ≡ depends_at nodes.now links.now n }
{
    let w = words::get(nodes, NODE, n, DEPS);
    every_link(links, w, |d| may_depend(nodes, n, d))
}

// Whether the subscriber list with this head is one link to the owner; without an owner, no link.
#[tactic(auto, unfolding(resting::specs::Depends::owned_on, resting::specs::Depends::only_to))]
fn owned_on(links: &[u64], owner: u64, subs: u64) -> bool
    ensures { result ≡ owned_on links.now owner subs }
{
    match (slots::open(owner), slots::open(subs)) {
        (Slot::Nothing, _) => subs == 0,
        (Slot::At(_), Slot::Nothing) => false,
        (Slot::At(o), Slot::At(x)) => {
            words::get(links, LINK, x, NEXT_SUB) == 0 && words::get(links, LINK, x, SUB) == o
        }
    }
}

// Whether node n, if it is an effect or scope, has the subscriber link that its owner asks for and no other, and no link at all if it is gone.
#[tactic(auto, unfolding(resting::specs::Depends::owned_at))]
pub fn owned_at(nodes: &[u64], links: &[u64], n: u64) -> bool
    ensures { result ≡ owned_at nodes.now links.now n }
{
    let owner = words::get(nodes, NODE, n, OWNER);
    let subs = words::get(nodes, NODE, n, SUBS);
    if legal::readable(nodes, n) {
        true
    } else if words::get(nodes, NODE, n, GONE) == 0 {
        owned_on(links, owner, subs)
    } else {
        subs == 0 && words::get(nodes, NODE, n, DEPS) == 0
    }
}
