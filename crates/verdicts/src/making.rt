// Rows 5 to 7 of the table: a new node's formula, its level, and room for it.
ghost use Rattle.std.specs.Prelude.{◌≡◌, false, [], ◌∷◌, ◌+◌, ◌*◌, min, ltb};
ghost use Rattle.primitive.specs.Words.{LEVEL, node};
ghost use Rattle.trees.specs.Names.{read_cells};
ghost use Rattle.counting.specs.Counts.{top};
ghost use Rattle.meaning.specs.Words.{command_of, owner_of};
ghost use Rattle.meaning.specs.Engine.{depth_under};
ghost use Rattle.meaning.specs.Reserve.{owned_link};
ghost use Rattle.meaning.specs.Refusals.{on, most_owner_depth, bad_formula, too_high, no_room, first};
ghost use Rattle.refusing.specs.Asked.{formula_in, owner_or};
ghost use Rattle.refusing.specs.Numbers.{refused_as};
ghost use Rattle.refusing.specs.Sight.{nodes_alone, sight_in};

use counts::depths::MOST_OWNER_DEPTH;
use counts::reserve::{plus, reserve};
use counts::room::{cell_room, node_room, slot_room};
use formula::cells::natural;
use formula::legal::legal;
use formula::scans::{MOST_HEIGHT, height, read_cells};
use primitive::kinds::Kind;
use primitive::rows::{COUNT, LEVEL, NODE, USED};
use primitive::words;
use refusals::asks::{asks_of, cells_from};
use refusing::asks::Asks;
use refusing::refusal::Refusal;

// The cells of the command's formula; none at all if it has no formula.
#[tactic(auto, using(refusing::proofs::CommandLaws::from_inside, refusing::proofs::MakingLaws::part_is), unfolding(refusing::specs::Asked::formula_in))]
fn formula_of(words: &[i64]) -> &[i64]
    ensures { result.now ≡ formula_in words.now }
{
    &words[cells_from(words)..]
}

// 5: the formula breaks a rule.
#[tactic(auto, using(refusing::proofs::MakingLaws::bad_none, refusing::proofs::MakingLaws::bad_some, refusing::proofs::MakingLaws::bad_bare), unfolding(meaning::specs::Words::command_of, meaning::specs::Refusals::bad_formula))]
pub fn bad_formula(nodes: &[u64], words: &[i64]) -> bool
    ensures { result ≡ on (command_of words.now) (bad_formula (nodes_alone nodes.now)) }
{
    match asks_of(words) {
        Asks::Makes { from, .. } => from.is_some() && !legal(nodes, formula_of(words)),
        _ => false,
    }
}

// Whether the owner depth of a node with this owner is over the greatest allowed. An unowned node's is 1.
fn too_deep(nodes: &[u64], owner: Option<i64>) -> bool
    ensures { result ≡ ltb most_owner_depth (depth_under (λ n. node nodes.now n LEVEL) (owner_of (owner_or owner))) }
{
    match natural(owner.unwrap_or(-1)) {
        Some(o) => words::get(nodes, NODE, o, LEVEL) >= MOST_OWNER_DEPTH,
        None => false,
    }
}

// 6: computed of height over 64, or owner depth over 16; of cells that are a formula.
fn too_high(nodes: &[u64], words: &[i64]) -> bool
    ensures { on (command_of words.now) (bad_formula (nodes_alone nodes.now)) ≡ false
        → result ≡ on (command_of words.now) (too_high (nodes_alone nodes.now)) }
{
    let Asks::Makes { kind, owner, .. } = asks_of(words) else {
        return false;
    };
    match kind {
        Kind::Computed => height(nodes, formula_of(words)) > MOST_HEIGHT,
        _ => too_deep(nodes, owner),
    }
}

// What a new node reserves: twice its read cells, and 1 more if it is owned.
fn wanted_slots(formula: &[i64], owner: Option<i64>) -> u64
    ensures { result ≡ min top (2 * read_cells formula.now + owned_link (owner_of (owner_or owner))) }
{
    let reads = read_cells(formula);
    let twice = plus(reads, reads);
    match natural(owner.unwrap_or(-1)) {
        Some(_) => plus(twice, 1),
        None => twice,
    }
}

// 7: node table full, too few cells left, or the reserve would exceed the link slots; of cells that are a formula.
fn no_room(nodes: &[u64], links: &[u64], cells: &[i64], words: &[i64]) -> bool
    ensures { on (command_of words.now) (bad_formula (nodes_alone nodes.now)) ≡ false
        → result ≡ on (command_of words.now) (no_room (sight_in nodes.now links.now cells.now 0)) }
{
    let Asks::Makes { owner, .. } = asks_of(words) else {
        return false;
    };
    let formula = formula_of(words);
    node_room(nodes) <= words::at(nodes, COUNT)
        || cell_room(cells) < plus(words::at(nodes, USED), (formula.len() / 2) as u64)
        || slot_room(links) < plus(reserve(nodes), wanted_slots(formula, owner))
}

// The first of rows 5 to 7 that holds.
pub fn making(nodes: &[u64], links: &[u64], cells: &[i64], words: &[i64]) -> Option<Refusal>
    ensures { refused_as result ≡ first 5 (on (command_of words.now) (bad_formula (nodes_alone nodes.now))
        ∷ on (command_of words.now) (too_high (nodes_alone nodes.now))
        ∷ on (command_of words.now) (no_room (sight_in nodes.now links.now cells.now 0)) ∷ []) }
{
    if bad_formula(nodes, words) {
        Some(Refusal::BadFormula)
    } else if too_high(nodes, words) {
        Some(Refusal::TooHigh)
    } else if no_room(nodes, links, cells, words) {
        Some(Refusal::NoRoom)
    } else {
        None
    }
}
