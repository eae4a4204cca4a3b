// A walk along one field of the link table, from one link to the next: an iterator over slots. Lists of well-formed tables meet each slot at most once, so the budget
// is the rows of links; a list that turns in a circle ends with it.
ghost use Rattle.std.specs.Prelude.{◌≡◌, ℕ, List};
ghost use Rattle.std.specs.Iterator.{YieldsFirst, item_count};
ghost use Rattle.primitive.specs.Walk.{along};
ghost use Rattle.primitive.specs.Words.{link_rows};

use crate::rows::LINK;
use crate::slots::Slot;
use crate::{slots, words};
use std::marker::Model;

#[derive(Drop)]
pub struct Walk<'a> {
    links: &'a [u64],
    field: u64,
    at: Slot,
    budget: usize,
}

// Clauses see the slots that are still to come.
impl<'a> Model for Walk<'a> {
    ghost Value = { List ℕ };

    ghost view = { λ w. along w.links.now w.field w.budget w.at };
}

impl<'a> Walk<'a> {
    // From the link `at` on, along a field that names the next one.
    pub fn new(links: &'a [u64], at: Slot, field: u64) -> Walk<'a>
        ensures { result ≡ along links.now field (link_rows links.now) at }
    {
        let budget = links.len() / 8;
        Walk {
            links,
            field,
            at,
            budget,
        }
    }
}

impl<'a> Iterator for Walk<'a> {
    type Item = u64;

    ghost next_gives = { YieldsFirst (λ s. s) };

    ghost remaining = { item_count (λ s. s) };

    fn next(&mut self) -> Option<u64> {
        if self.budget == 0 {
            return None;
        }
        let Slot::At(s) = self.at else {
            return None;
        };
        self.budget -= 1;
        self.at = slots::open(words::get(self.links, LINK, s, self.field));
        Some(s)
    }
}
