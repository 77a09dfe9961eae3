//! Changes of a text in order, with their places.

ghost use Rattle.std.specs.Prelude.{◌≡◌, [], ◌∷◌, ◌++◌, true, OnOk, OnErr};
ghost use Rattle.change_defs.specs.Changes.{placed, are_in_order, all_fit, starts_behind, fits_behind};

use crate::lengths::{carried, sum};
use crate::places::joint_behind;
use change_defs::{Change, Joint, Placed};
use std::alloc::{AllocError, Global};
use std::marker::Model;

/// Changes of a text, in order: each starts behind the end of the one before, in the old text. Clauses see the list of
/// them.
#[derive(Debug, Drop)]
pub struct Spans {
    places: Vec<Placed>,
}

impl Model for Spans {
    ghost use Rattle.std.specs.Prelude.{List};
    ghost use Rattle.change_defs.specs.declared.Change.{Change};
    ghost use Rattle.edit_mapper.specs.Places.{changes_in, ArePlaces};

    ghost Value = { List Change };

    ghost view = { λ s. changes_in s.places.items };

    ghost invariant = { λ s. ArePlaces s.places.items };
}

impl Spans {
    /// No changes. The allocator is that of later calls.
    pub fn none(alloc: Global) -> Spans
        ensures { result ≡ [] }
    {
        Spans {
            places: Vec::new(alloc),
        }
    }

    /// Adds a change behind the others. Its start and its end are of 32 bits in both texts.
    pub fn push(&mut self, change: Change) -> Result<(), AllocError>
        requires order { starts_behind self.old change ≡ true }
        requires fits { fits_behind self.old change ≡ true }
        ensures ok { OnOk result (self.new ≡ self.old ++ change ∷ []) }
        ensures err { OnErr result (self.new ≡ self.old) }
    {
        let joint = joint_behind(self.places.as_slice(), self.places.len());
        let from = Joint {
            old: change.start,
            new: carried(joint, change.start),
        };
        let to = Joint {
            old: sum(change.start, change.old),
            new: sum(from.new, change.new),
        };
        self.places.push(Placed { change, from, to })?;
        Ok(())
    }

    /// The changes with their places.
    pub(crate) fn places(&self) -> &[Placed]
        ensures places { result.now ≡ placed self.now }
        ensures order { are_in_order self.now ≡ true }
        ensures fit { all_fit self.now ≡ true }
    {
        self.places.as_slice()
    }
}
