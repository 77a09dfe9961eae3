//! Which marks are clear of all changes, which none cuts, and where the clear ones are in the new text.

ghost use Rattle.std.specs.Prelude.{◌≡◌, true, false, filter, IfOk, IfSome, IfNone};
ghost use Rattle.std.specs.List.{list_all};
ghost use Rattle.change_defs.specs.Agreement.{start_of, end_of, is_clear_of, is_within, is_clear, is_uncut};
ghost use Rattle.agreement_check.specs.Checks.{mark_fits, moved_by, moved_marks};

use crate::images::{image, is_less};
use change_defs::Placed;
use pairing_defs::Mark;
use std::alloc::{AllocError, Global};
use text_pos::{Length, Pos};

fn start_of(mark: Mark) -> Length
    ensures { result ≡ start_of mark }
{
    Length {
        lines: mark.at.line,
        cols: mark.at.col,
    }
}

fn end_of(mark: Mark) -> Length
    ensures { result ≡ end_of mark }
{
    Length {
        lines: mark.at.line,
        cols: mark.to,
    }
}

/// Whether a mark ends at or before a change's start, or begins at or behind its end.
fn is_clear_of(place: Placed, mark: Mark) -> bool
    ensures { result ≡ is_clear_of place mark }
{
    !is_less(place.from.old, end_of(mark)) || !is_less(start_of(mark), place.to.old)
}

/// Whether a mark lies within a change, ends included.
fn is_within(place: Placed, mark: Mark) -> bool
    ensures { result ≡ is_within place mark }
{
    !is_less(start_of(mark), place.from.old) && !is_less(place.to.old, end_of(mark))
}

/// Whether a mark is clear of all changes.
pub(crate) fn is_clear(places: &[Placed], mark: Mark) -> bool
    ensures clear { result ≡ is_clear places.now mark }
    ensures fit { mark_fits mark ≡ true }
{
    places.iter().all(|place| is_clear_of(*place, mark))
}

/// Whether no change cuts a mark.
fn is_uncut(places: &[Placed], mark: Mark) -> bool
    ensures { result ≡ is_uncut places.now mark }
{
    places.iter().all(|place| is_clear_of(*place, mark) || is_within(*place, mark))
}

/// Whether no change cuts any of the marks.
pub(crate) fn are_uncut(places: &[Placed], marks: &[Mark]) -> bool
    ensures { result ≡ list_all (is_uncut places.now) marks.now }
{
    marks.iter().all(|mark| is_uncut(places, *mark))
}

/// The mark of the new text that a mark is which is clear of all changes, where it is of 32 bits.
fn moved(places: &[Placed], mark: Mark) -> Option<Mark>
    ensures moved { IfSome result (λ m. m ≡ moved_by places.now mark) }
    ensures none { IfNone result (mark_fits (moved_by places.now mark) ≡ false) }
{
    let at = image(places, start_of(mark))?;
    let width = mark.to.saturating_sub(mark.at.col);
    let to = at.cols.checked_add(width)?;
    Some(Mark {
        at: Pos {
            line: at.lines,
            col: at.cols,
        },
        to,
        role: mark.role,
    })
}

/// The marks that are clear of all changes, each where it is in the new text, if they are all of 32 bits.
pub(crate) fn moved_marks(
    alloc: Global,
    places: &[Placed],
    marks: &[Mark],
) -> Result<Option<Vec<Mark>>, AllocError>
    ensures moved { IfOk result (λ o. IfSome o (λ all. all.items ≡ moved_marks places.now marks.now)) }
    ensures none { IfOk result (λ o. IfNone o (list_all mark_fits (moved_marks places.now marks.now) ≡ false)) }
{
    let mut all = Vec::new(alloc);
    for mark in marks {
        if is_clear(places, *mark) {
            match moved(places, *mark) {
                Some(moved) => all.push(moved)?,
                None => return Ok(None),
            }
        }
    }
    Ok(Some(all))
}

/// The marks that are clear of all changes.
pub(crate) fn clear_marks(
    alloc: Global,
    places: &[Placed],
    marks: &[Mark],
) -> Result<Vec<Mark>, AllocError>
    ensures clear { IfOk result (λ all. all.items ≡ filter (is_clear places.now) marks.now) }
    ensures fit { IfOk result (λ all. list_all mark_fits all.items ≡ true) }
{
    let mut all = Vec::new(alloc);
    for mark in marks {
        if is_clear(places, *mark) {
            all.push(*mark)?;
        }
    }
    Ok(all)
}
