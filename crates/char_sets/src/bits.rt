//! Which of 64 codes in a row are in ranges, a bit for each.

ghost use Rattle.std.specs.Prelude.{◌≡◌, ◌≤◌, ◌<◌, ◌+◌, ℕ, true};
ghost use Rattle.std.specs.Int.{bit_at};
ghost use Rattle.char_sets.specs.Case.{is_from_to};
ghost use Rattle.char_sets.specs.Ranges.{bit, in_range, rises, AreBitsOf};

use crate::char_set::CharRange;

/// The bits from `low` to `high`.
fn ones(low: u32, high: u32) -> u64
    requires within { high < 64 }
    requires below { low ≤ high }
    ensures { (k : ℕ) → k < 64 → bit_at result k ≡ bit (is_from_to low high k) }
{
    (u64::MAX << low) & (u64::MAX >> (63 - high))
}

/// Which of the 64 codes from `first` on are in the range, a bit for each.
fn bits_of_range(range: CharRange, first: u32) -> u64
    requires few { first + 64 ≤ 128 }
    requires ordered { range.first ≤ range.last }
    ensures { (k : ℕ) → k < 64 → bit_at result k ≡ bit (in_range (first + k) range) }
{
    if range.last < first || range.first >= first + 64 {
        return 0;
    }
    ones(range.first.max(first) - first, (range.last - first).min(63))
}

/// Which of the 64 codes from `first` on are in the ranges, a bit for each.
pub(crate) fn bits_of(ranges: &[CharRange], first: u32) -> u64
    requires rising { rises 0 ranges.now ≡ true }
    requires few { first + 64 ≤ 128 }
    ensures { AreBitsOf result ranges.now first }
{
    let mut word = 0;
    for range in ranges {
        word |= bits_of_range(*range, first);
    }
    word
}
