//! Order, sums and differences of lengths, and places as far behind a joint as others.

ghost use Rattle.std.specs.Prelude.{◌≡◌, ◌+◌, ◌^◌, ◌<◌, true, false};
ghost use Rattle.text_pos.specs.Lengths.{plus};
ghost use Rattle.tree_defs.specs.Ends.{fits};
ghost use Rattle.change_defs.specs.Changes.{is_less, rest_of, first_joint, carried, if_fits};

use change_defs::Joint;
use text_pos::{Length, minus};

/// Whether a length is less than another, by lines and then by columns.
pub(crate) fn is_less(a: Length, b: Length) -> bool
    ensures { result ≡ is_less a b }
{
    a.lines < b.lines || (a.lines == b.lines && a.cols < b.cols)
}

/// What is left of a length behind its front.
pub(crate) fn rest_of(whole: Length, front: Length) -> Length
    requires { is_less whole front ≡ false }
    ensures { result ≡ rest_of whole front }
{
    minus(whole, front)
}

/// The length of a piece and the piece behind it.
pub(crate) fn sum(a: Length, b: Length) -> Length
    requires { fits (plus a b) ≡ true }
    ensures { result ≡ plus a b }
{
    if b.lines == 0 {
        Length {
            lines: a.lines,
            cols: a.cols + b.cols,
        }
    } else {
        Length {
            lines: a.lines + b.lines,
            cols: b.cols,
        }
    }
}

/// The same where it is of 32 bits.
pub(crate) fn checked_sum(a: Length, b: Length) -> Option<Length>
    ensures { result ≡ if_fits (plus a b) }
{
    if b.lines == 0 {
        let cols = a.cols.checked_add(b.cols)?;
        Some(Length {
            lines: a.lines,
            cols,
        })
    } else {
        let lines = a.lines.checked_add(b.lines)?;
        Some(Length {
            lines,
            cols: b.cols,
        })
    }
}

/// Where both texts start.
pub(crate) fn first_joint() -> Joint
    ensures { result ≡ first_joint }
{
    let start = Length { lines: 0, cols: 0 };
    Joint {
        old: start,
        new: start,
    }
}

/// The place of the new text that lies as far behind a joint as a place of the old text does.
pub(crate) fn carried(joint: Joint, at: Length) -> Length
    requires behind { is_less at joint.old ≡ false }
    requires fits { fits (carried joint at) ≡ true }
    ensures { result ≡ carried joint at }
{
    sum(joint.new, rest_of(at, joint.old))
}
