//! The place of the new text that an old place is, and sums of lengths of 32 bits.

ghost use Rattle.std.specs.Prelude.{◌≡◌, true, false, IfSome, IfNone};
ghost use Rattle.text_pos.specs.Lengths.{plus};
ghost use Rattle.change_defs.specs.Changes.{is_less, rest_of, carried, first_joint, end_before, image_by, is_inside, turned};
ghost use Rattle.tree_defs.specs.Ends.{fits};

use change_defs::{Joint, Placed};
use text_pos::Length;

/// Whether a length is less than another, by lines and then by columns.
pub(crate) fn is_less(a: Length, b: Length) -> bool
    ensures { result ≡ is_less a b }
{
    a.lines < b.lines || (a.lines == b.lines && a.cols < b.cols)
}

/// What is left of a length behind its front.
fn rest_of(whole: Length, front: Length) -> Length
    ensures { result ≡ rest_of whole front }
{
    if whole.lines == front.lines {
        Length {
            lines: 0,
            cols: whole.cols.saturating_sub(front.cols),
        }
    } else {
        Length {
            lines: whole.lines.saturating_sub(front.lines),
            cols: whole.cols,
        }
    }
}

/// The length of a piece and the piece behind it, where it is of 32 bits.
pub(crate) fn sum(a: Length, b: Length) -> Option<Length>
    ensures sum { IfSome result (λ l. l ≡ plus a b) }
    ensures fits { IfSome result (λ l. fits l ≡ true) }
    ensures none { IfNone result (fits (plus a b) ≡ false) }
{
    if b.lines == 0 {
        let cols = a.cols.checked_add(b.cols)?;
        Some(Length {
            lines: a.lines,
            cols,
        })
    } else {
        let lines = a.lines.checked_add(b.lines)?;
        Some(Length {
            lines,
            cols: b.cols,
        })
    }
}

/// The place of the new text that lies as far behind a joint as a place of the old text does, where it is of 32 bits.
pub(crate) fn carried(joint: Joint, at: Length) -> Option<Length>
    ensures image { IfSome result (λ l. l ≡ carried joint at) }
    ensures fits { IfSome result (λ l. fits l ≡ true) }
    ensures none { IfNone result (fits (carried joint at) ≡ false) }
{
    sum(joint.new, rest_of(at, joint.old))
}

/// Where both texts start.
pub(crate) fn first_joint() -> Joint
    ensures { result ≡ first_joint }
{
    let start = Length { lines: 0, cols: 0 };
    Joint {
        old: start,
        new: start,
    }
}

/// The end of the last change that ends at or before an old place, or else where both texts start.
fn end_before(places: &[Placed], at: Length) -> Joint
    ensures { result ≡ end_before first_joint places.now at }
{
    let mut joint = first_joint();
    for place in places {
        joint = if is_less(at, place.to.old) {
            joint
        } else {
            place.to
        };
    }
    joint
}

/// The place of the new text that an old place is, where it is of 32 bits.
pub(crate) fn image(places: &[Placed], at: Length) -> Option<Length>
    ensures image { IfSome result (λ l. l ≡ image_by places.now at) }
    ensures none { IfNone result (fits (image_by places.now at) ≡ false) }
{
    carried(end_before(places, at), at)
}

/// Whether an old place lies strictly inside a change.
pub(crate) fn is_inside(places: &[Placed], at: Length) -> bool
    ensures { result ≡ is_inside places.now at }
{
    places.iter().any(|place| is_less(place.from.old, at) && is_less(at, place.to.old))
}
