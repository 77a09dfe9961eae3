//! The levels of parentheses that are open while a selector is read.

ghost use Rattle.std.specs.Prelude.{◌≡◌, ◌↔◌, [], ◌∷◌, IsTrue, OnOk};
ghost use Rattle.selectors.specs.Piles.{IsPopped};

use std::alloc::{AllocError, Global};
use std::marker::Model;

/// What was read before a parenthesis opened: how many parentheses and minus signs stand around its level, and how many
/// minus signs stand before it.
#[derive(Clone, Copy)]
pub(crate) struct Outer {
    pub(crate) outside: u64,
    pub(crate) minuses: u64,
}

/// The levels around one, the innermost first.
#[derive(Drop)]
pub(crate) struct Pile {
    items: Vec<Outer>,
}

impl Model for Pile {
    ghost use Rattle.std.specs.Prelude.{List, reverse};
    ghost use Rattle.selectors.specs.declared.pile.Outer.{Outer};

    ghost Value = { List Outer };

    ghost view = { λ pile. reverse pile.items.items };
}

impl Pile {
    pub(crate) fn new(alloc: Global) -> Pile
        ensures { result ≡ [] }
    {
        Pile {
            items: Vec::new(alloc),
        }
    }

    pub(crate) fn is_empty(&self) -> bool
        ensures { IsTrue result ↔ (self.now ≡ []) }
    {
        self.items.is_empty()
    }

    pub(crate) fn push(&mut self, outer: Outer) -> Result<(), AllocError>
        ensures { OnOk result (self.new ≡ outer ∷ self.old) }
    {
        self.items.push(outer)?;
        Ok(())
    }

    pub(crate) fn pop(&mut self) -> Option<Outer>
        ensures { IsPopped self.old self.new result }
    {
        self.items.pop()
    }
}
