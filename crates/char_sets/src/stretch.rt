//! How far codes are all in the ranges of a set or all outside, found by halves.

ghost use Rattle.std.specs.Prelude.{◌≡◌, ◌≤◌, ◌<◌, ℕ, true, OnOk};
ghost use Rattle.char_sets.specs.Places.{IsReached, IsNear};
ghost use Rattle.char_sets.specs.Ranges.{in_set, rises, closed};

use crate::char_set::CharRange;
use std::alloc::AllocError;

/// One above the greatest code.
pub(crate) const END: u32 = 0x11_0000;

/// Whether the codes from one place up to an end are in a set: all of them, or none.
#[derive(Clone, Copy, Debug)]
pub(crate) struct Stretch {
    pub(crate) has: bool,
    pub(crate) end: u32,
}

/// The place of the first range that ends at the code or after it, found by halves.
fn first_reaching(ranges: &[CharRange], code: u32) -> usize
    requires { rises 0 ranges.now ≡ true }
    ensures { IsReached ranges.now result code }
{
    let mut low = 0;
    let mut high = ranges.len();
    while low < high {
        let mid = low + (high - low) / 2;
        if ranges[mid].last < code {
            low = mid + 1;
        } else {
            high = mid;
        }
    }
    low
}

/// From the code on: how far all codes are in the ranges, or none is. The range at `place` is the first that ends at
/// the code or after it.
pub(crate) fn stretch_from(ranges: &[CharRange], place: usize, code: u32) -> Stretch
    requires rising { rises 0 ranges.now ≡ true }
    requires within { code < 1_114_112 }
    requires reached { IsReached ranges.now place code }
    ensures all { (c : ℕ) → code ≤ c → c < result.end → in_set ranges.now c ≡ result.has }
    ensures further { code < result.end }
    ensures end { result.end ≤ 1_114_112 }
    ensures near { IsNear ranges.now place result.end }
{
    if place == ranges.len() {
        return Stretch {
            has: false,
            end: END,
        };
    }
    let range = ranges[place];
    if code < range.first {
        Stretch {
            has: false,
            end: range.first,
        }
    } else {
        Stretch {
            has: true,
            end: range.last + 1,
        }
    }
}

/// The first range that ends at the code or after it, where the one at `place` may end just before it.
pub(crate) fn place_behind(ranges: &[CharRange], place: usize, code: u32) -> usize
    requires rising { rises 0 ranges.now ≡ true }
    requires reached { (before : ℕ) × (before ≤ code) × IsReached ranges.now place before }
    requires near { IsNear ranges.now place code }
    ensures { IsReached ranges.now result code }
{
    if place < ranges.len() && ranges[place].last < code {
        place + 1
    } else {
        place
    }
}

/// Whether the character with this code is in the ranges.
pub(crate) fn has_code(ranges: &[CharRange], code: u32) -> bool
    requires rising { rises 0 ranges.now ≡ true }
    requires within { code < 1_114_112 }
    ensures { result ≡ in_set ranges.now code }
{
    let place = first_reaching(ranges, code);
    stretch_from(ranges, place, code).has
}

/// Writes the range from `start` up to `at`, where it has a member.
pub(crate) fn close(ranges: &mut Vec<CharRange>, start: u32, at: u32) -> Result<(), AllocError>
    ensures { OnOk result (ranges.new.items ≡ closed ranges.old.items start at) }
{
    if start < at {
        ranges.push(CharRange {
            first: start,
            last: at - 1,
        })?;
    }
    Ok(())
}
