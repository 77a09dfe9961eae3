//! What groups took, by their numbers.

ghost use Rattle.std.specs.Prelude.{◌≡◌, ◌+◌, ◌<◌, ◌≤◌, [], length, slice_get, slice_set, replicate, Some, None, IfOk};
ghost use Rattle.onig_match.specs.Piles.{Piled};

use pattern_defs::Place;
use std::alloc::{AllocError, Global};
use std::marker::Model;

/// What groups took, by their numbers, in room that was reserved.
#[derive(Debug, Drop)]
pub(crate) struct Captures {
    room: u32,
    items: Vec<Option<Place>>,
}

impl Model for Captures {
    ghost use Rattle.std.specs.Prelude.{Option, ◌+◌, ◌<◌, ◌≤◌, ◌^◌, length, vec_capacity};
    ghost use Rattle.pattern_defs.specs.declared.outcomes.Place.{Place};
    ghost use Rattle.onig_match.specs.Piles.{Piled};

    ghost Value = { Piled (Option Place) };

    ghost view = { λ c. record { room = c.room; items = c.items.items } };

    ghost invariant = { λ c.
        (length c.items.items ≤ c.room + 1) × (c.room + 1 ≤ vec_capacity c.items) × (c.room < 2 ^ 32) };
}

impl Captures {
    /// Room for so many groups beside the whole match.
    pub(crate) fn new(alloc: Global, room: u32) -> Result<Captures, AllocError>
        ensures { IfOk result (λ c. c ≡ record { room = room; items = [] }) }
    {
        Ok(Captures {
            room,
            items: Vec::with_capacity(alloc, room as usize + 1)?,
        })
    }

    /// All unset, for so many groups.
    pub(crate) fn reset(&mut self, groups: u32)
        requires { groups ≤ self.old.room }
        ensures { self.new ≡ record self.old { items = replicate (groups + 1) None } }
    {
        self.items.clear();
        for _n in 0..groups as usize + 1 {
            self.items.push_reserved(None);
        }
    }

    pub(crate) fn get(&self, number: u32) -> Option<Place>
        requires { number < length self.now.items }
        ensures { slice_get self.now.items number ≡ Some result }
    {
        self.items[number as usize]
    }

    pub(crate) fn set(&mut self, number: u32, taken: Option<Place>)
        requires { number < length self.old.items }
        ensures { self.new ≡ record self.old { items = slice_set self.old.items number taken } }
    {
        self.items[number as usize] = taken;
    }

    pub(crate) fn len(&self) -> u64
        ensures len { result ≡ length self.now.items }
        ensures room { result ≤ self.now.room + 1 }
    {
        self.items.len() as u64
    }
}
