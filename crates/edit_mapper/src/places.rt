//! Finds the changes around a place of the new text.

ghost use Rattle.std.specs.Prelude.{◌≡◌, ◌<◌, ◌≤◌, length, take, slice_get, not, true, false, Option};
ghost use Rattle.std.specs.List.Sorted.{IsPartitionPoint};
ghost use Rattle.change_defs.specs.Changes.{is_less, first_joint};
ghost use Rattle.change_laws.specs.Rising.{Rise, in_new};
ghost use Rattle.edit_mapper.specs.Places.{last_end, starts_before};

use crate::lengths::{first_joint, is_less};
use change_defs::{Joint, Placed};
use text_pos::Length;

/// How many changes end at or before a place of the new text.
pub(crate) fn count_ended(places: &[Placed], offset: Length) -> usize
    requires { Rise in_new places.now }
    ensures bound { result ≤ length places.now }
    ensures point { IsPartitionPoint (λ p. not (is_less offset p.to.new) ≡ true) (λ p. not (is_less offset p.to.new) ≡ false) places.now result }
{
    places.partition_point(|place| !is_less(offset, place.to.new))
}

/// Where the last of the first `count` changes ends, or else where both texts start.
pub(crate) fn joint_behind(places: &[Placed], count: usize) -> Joint
    requires { count ≤ length places.now }
    ensures { result ≡ last_end first_joint (take count places.now) }
{
    if count == 0 {
        first_joint()
    } else {
        places[count - 1].to
    }
}

/// The change of this number, if there is one.
pub(crate) fn place_at(places: &[Placed], number: usize) -> Option<Placed>
    ensures { result ≡ slice_get places.now number }
{
    match places.get(number) {
        None => None,
        Some(place) => Some(*place),
    }
}

/// Whether there is a change of this number, and it starts before a place of the new text.
pub(crate) fn starts_before(places: &[Placed], number: usize, offset: Length) -> bool
    ensures { result ≡ starts_before (slice_get places.now number) offset }
{
    match place_at(places, number) {
        None => false,
        Some(place) => is_less(place.from.new, offset),
    }
}
