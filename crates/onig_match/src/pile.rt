//! Items in room that was reserved, the last on top.

ghost use Rattle.std.specs.Prelude.{◌≡◌, ◌<◌, ◌≤◌, ◌-◌, List, [], ◌∷◌, length, drop, slice_get, Some, IfOk, MatchOption};
ghost use Rattle.onig_match.specs.Piles.{Piled};

use std::alloc::{AllocError, Global};
use std::marker::Model;

/// Items in room that was reserved. Contracts see the last item first.
#[derive(Debug, Drop)]
pub(crate) struct Pile<T> {
    room: u32,
    items: Vec<T>,
}

impl<T> Model for Pile<T> {
    ghost use Rattle.std.specs.Prelude.{◌<◌, ◌≤◌, ◌^◌, length, reverse, vec_capacity};
    ghost use Rattle.onig_match.specs.Piles.{Piled};

    ghost Value = { Piled T };

    ghost view = { λ p. record { room = p.room; items = reverse p.items.items } };

    ghost invariant = { λ p. (length p.items.items ≤ p.room) × (p.room ≤ vec_capacity p.items) × (p.room < 2 ^ 32) };
}

impl<T: Copy> Pile<T> {
    pub(crate) fn new(alloc: Global, room: u32) -> Result<Pile<T>, AllocError>
        ensures { IfOk result (λ p. p ≡ record { room = room; items = [] }) }
    {
        Ok(Pile {
            room,
            items: Vec::with_capacity(alloc, room as usize)?,
        })
    }

    pub(crate) fn len(&self) -> u32
        ensures len { result ≡ length self.now.items }
        ensures room { result ≤ self.now.room }
    {
        self.items.len() as u32
    }

    pub(crate) fn push(&mut self, item: T)
        requires { length self.old.items < self.old.room }
        ensures { self.new ≡ record self.old { items = item ∷ self.old.items } }
    {
        self.items.push_reserved(item);
    }

    pub(crate) fn pop(&mut self) -> Option<T>
        ensures { MatchOption result
            ((self.old.items ≡ []) × (self.new ≡ self.old))
            (λ item. (self.old.items ≡ item ∷ self.new.items) × (self.new.room ≡ self.old.room)) }
    {
        self.items.pop()
    }

    /// Drops the last items, down to so many.
    pub(crate) fn cut(&mut self, height: u32)
        ensures { self.new ≡ record self.old { items = drop (length self.old.items - height) self.old.items } }
    {
        self.items.truncate(height as usize);
    }

    /// The item with this number. The first that was pushed has the number 1.
    pub(crate) fn item(&self, number: u32) -> T
        requires above { 0 < number }
        requires there { number ≤ length self.now.items }
        ensures { slice_get self.now.items (length self.now.items - number) ≡ Some result }
    {
        self.items[number as usize - 1]
    }
}
