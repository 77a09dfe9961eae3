//! Changes in order with their places in both texts, and the changes that lead back.

ghost use Rattle.std.specs.Prelude.{◌≡◌, true, false, map, IfOk, IfSome, IfNone};
ghost use Rattle.change_defs.specs.Changes.{is_less, placed, placed_at, placed_fits, all_fit, are_in_order, turned};

use crate::images::{carried, first_joint, is_less, sum};
use change_defs::{Joint, Placed};
use edit_mapper::{Change, Spans};
use std::alloc::{AllocError, Global};

/// Changes in order, and where they start and end in both texts.
#[derive(Drop)]
pub(crate) struct Laid {
    pub(crate) spans: Spans,
    pub(crate) places: Vec<Placed>,
}

/// A change with its places, if nothing changes between a joint before it and its start, and if they are of 32 bits.
fn place_of(joint: Joint, change: Change) -> Option<Placed>
    ensures place { IfSome result (λ p. p ≡ placed_at joint change) }
    ensures fits { IfSome result (λ p. placed_fits (placed_at joint change) ≡ true) }
    ensures none { IfNone result (placed_fits (placed_at joint change) ≡ false) }
{
    let from = carried(joint, change.start)?;
    let end = sum(change.start, change.old)?;
    let to = sum(from, change.new)?;
    Some(Placed {
        change,
        from: Joint {
            old: change.start,
            new: from,
        },
        to: Joint { old: end, new: to },
    })
}

/// The changes with their places, if they are in order and of 32 bits.
pub(crate) fn places_of(alloc: Global, changes: &[Change]) -> Result<Option<Laid>, AllocError>
    ensures spans { IfOk result (λ o. IfSome o (λ l. l.spans ≡ changes.now)) }
    ensures order { IfOk result (λ o. IfSome o (λ l. are_in_order changes.now ≡ true)) }
    ensures places { IfOk result (λ o. IfSome o (λ l. l.places.items ≡ placed changes.now)) }
    ensures none { IfOk result (λ o. IfNone o (are_in_order changes.now ≡ true → all_fit changes.now ≡ true → ⊥)) }
{
    let mut spans = Spans::none(alloc);
    let mut places = Vec::new(alloc);
    let mut joint = first_joint();
    for change in changes {
        if !places.is_empty() && !is_less(joint.old, change.start) {
            return Ok(None);
        }
        let Some(place) = place_of(joint, *change) else {
            return Ok(None);
        };
        spans.push(*change)?;
        places.push(place)?;
        joint = place.to;
    }
    Ok(Some(Laid { spans, places }))
}

/// The change that leads back from the new text to the old one.
fn turned(place: Placed) -> Placed
    ensures { result ≡ turned place }
{
    Placed {
        change: Change {
            start: place.from.new,
            old: place.change.new,
            new: place.change.old,
        },
        from: Joint {
            old: place.from.new,
            new: place.from.old,
        },
        to: Joint {
            old: place.to.new,
            new: place.to.old,
        },
    }
}

/// The changes that lead back.
pub(crate) fn all_turned(alloc: Global, places: &[Placed]) -> Result<Vec<Placed>, AllocError>
    ensures { IfOk result (λ back. back.items ≡ map turned places.now) }
{
    let mut back = Vec::new(alloc);
    for place in places {
        back.push(turned(*place))?;
    }
    Ok(back)
}
