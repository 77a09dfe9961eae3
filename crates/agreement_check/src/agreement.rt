//! The test whether marks before and behind changes agree outside them.

ghost use Rattle.std.specs.Prelude.{◌≡◌, ◌<◌, ◌^◌, ◌↔◌, IsTrue, length, IfOk, IfSome, IfNone};
ghost use Rattle.change_defs.specs.declared.Placed.{Placed};
ghost use Rattle.agreement_check.specs.Checks.{AreSameBy, AgreeBy, AreAgreed, IsRefused, MayBeReused, moved_marks};
ghost use Rattle.mark_source.specs.Source.{AreMarked};
ghost use Rattle.std.specs.Prelude.{filter};
ghost use Rattle.change_defs.specs.Agreement.{is_clear};
ghost use Rattle.change_defs.specs.Changes.{image_by};

use crate::clear::{are_uncut, clear_marks, moved_marks};
use crate::images::{image, is_inside};
use crate::kept::{places_keep, starts_keep};
use crate::laid::{all_turned, places_of};
use crate::plain::{Plain, plain_of};
use crate::same::are_same_marks;
use bracket_lex::MarkLines;
use change_defs::Placed;
use edit_mapper::{Change, Spans};
use pairing_defs::Mark;
use std::alloc::{AllocError, Global};
use text_pos::Length;

/// Whether an old place is this place of the new text.
fn is_image(places: &[Placed], old: Length, new: Length) -> bool
    ensures { IsTrue result ↔ (image_by places.now old ≡ new) }
{
    match image(places, old) {
        Some(there) => there == new,
        None => false,
    }
}

/// Whether two places are images of each other.
fn are_same(places: &[Placed], back: &[Placed], old: Length, new: Length) -> bool
    ensures { IsTrue result ↔ AreSameBy places.now back.now old new }
{
    !is_inside(places, old)
        && !is_inside(back, new)
        && is_image(places, old, new)
        && is_image(back, new, old)
}

/// Whether the marks that are clear of all changes are the same.
fn marks_agree(
    alloc: Global,
    places: &[Placed],
    back: &[Placed],
    old: &[Mark],
    new: &[Mark],
) -> Result<bool, AllocError>
    ensures { IfOk result (λ b. IsTrue b ↔ (moved_marks places.now old.now ≡ filter (is_clear back.now) new.now)) }
{
    let clear = clear_marks(alloc, back, new)?;
    let Some(moved) = moved_marks(alloc, places, old)? else {
        return Ok(false);
    };
    Ok(are_same_marks(&moved, &clear))
}

/// Whether the marks of two texts agree outside changes at these places.
fn agree_by(
    alloc: Global,
    places: &[Placed],
    back: &[Placed],
    old: &Plain,
    new: &Plain,
) -> Result<bool, AllocError>
    requires { length old.now.lines < 2 ^ 32 }
    ensures { IfOk result (λ b. IsTrue b ↔ AgreeBy places.now back.now old.now new.now) }
{
    if !are_same(places, back, old.end, new.end)
        || !are_uncut(places, &old.marks)
        || !are_uncut(back, &new.marks)
        || !places_keep(&old.lengths, &new.lengths, places)
        || !starts_keep(&new.lengths, places)
    {
        return Ok(false);
    }
    marks_agree(alloc, places, back, &old.marks, &new.marks)
}

/// The changes, if they are in order and of 32 bits in both texts, and if outside of them the marks of old and new lines
/// agree.
pub fn agreed(
    alloc: Global,
    changes: &[Change],
    old: &MarkLines,
    new: &MarkLines,
) -> Result<Option<Spans>, AllocError>
    requires marked { AreMarked old.now }
    requires old { 0 < length old.now }
    requires new { 0 < length new.now }
    ensures spans { IfOk result (λ o. IfSome o (λ s. s ≡ changes.now)) }
    ensures agreed { IfOk result (λ o. IfSome o (λ s. AreAgreed changes.now old.now new.now)) }
    ensures reuse { IfOk result (λ o. IfSome o (λ s. MayBeReused s old.now new.now)) }
    ensures none { IfOk result (λ o. IfNone o (IsRefused changes.now old.now new.now)) }
{
    let Some(laid) = places_of(alloc, changes)? else {
        return Ok(None);
    };
    let back = all_turned(alloc, &laid.places)?;
    let old = plain_of(alloc, old)?;
    let new = plain_of(alloc, new)?;
    if agree_by(alloc, &laid.places, &back, &old, &new)? {
        Ok(Some(laid.spans))
    } else {
        Ok(None)
    }
}
