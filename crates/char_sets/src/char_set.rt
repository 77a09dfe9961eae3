//! Sets of characters as rising ranges, with two words for the codes below 128.

ghost use Rattle.std.specs.Prelude.{◌≡◌, ◌≤◌, ◌<◌, ◌+◌, ◌&&◌, ℕ, [], ◌∷◌, true, IfOk, length, nat_le};
ghost use Rattle.char_sets.specs.Ranges.{in_set, rises, IsSetOf, AreBitsOf};

use crate::bits::bits_of;
use crate::ranges::Ranges;
use crate::stretch::has_code;
use std::alloc::{AllocError, Global};
use std::marker::Model;

/// The characters with codes from `first` to `last`.
#[derive(Clone, Copy, Debug, PartialEq, Eq)]
pub struct CharRange {
    pub first: u32,
    pub last: u32,
}

/// A set of characters. Contracts see it as its ranges, which rise. Two words say which of the codes below 128
/// are in it, and copies share the ranges.
#[derive(Debug, Drop)]
pub struct CharSet {
    low: u64,
    high: u64,
    ranges: Ranges,
}

impl Model for CharSet {
    ghost use Rattle.std.specs.Prelude.{◌≡◌, true, List};
    ghost use Rattle.char_sets.specs.Kept.{ranges_of};
    ghost use Rattle.char_sets.specs.Ranges.{rises, AreBitsOf};
    ghost use Rattle.char_sets.specs.declared.char_set.CharRange.{CharRange};

    ghost Value = { List CharRange };

    ghost view = { λ s. ranges_of s.ranges };

    ghost invariant = { λ s. (rises 0 (ranges_of s.ranges) ≡ true)
        × AreBitsOf s.low (ranges_of s.ranges) 0 × AreBitsOf s.high (ranges_of s.ranges) 64 };
}

impl CharSet {
    /// The set with no characters.
    pub fn empty(_alloc: Global) -> CharSet
        ensures { result ≡ [] }
    {
        CharSet {
            low: 0,
            high: 0,
            ranges: Ranges::Nothing,
        }
    }

    /// The set of all characters.
    pub fn all() -> CharSet
        ensures { result ≡ record { first = 0; last = 1_114_111 } ∷ [] }
    {
        CharSet::of_range(CharRange {
            first: 0,
            last: 0x10_FFFF,
        })
    }

    /// The set of one character.
    pub fn one(alloc: Global, c: char) -> Result<CharSet, AllocError>
        ensures { IfOk result (λ s. IsSetOf s (λ d. nat_le c d && nat_le d c)) }
    {
        CharSet::range(alloc, c, c)
    }

    /// The characters from `first` to `last`, both included.
    pub fn range(_alloc: Global, first: char, last: char) -> Result<CharSet, AllocError>
        requires { first ≤ last }
        ensures { IfOk result (λ s. IsSetOf s (λ c. nat_le first c && nat_le c last)) }
    {
        Ok(CharSet::of_range(CharRange {
            first: first as u32,
            last: last as u32,
        }))
    }

    /// A set with the same ranges, which both share.
    pub fn copy(&self, _alloc: Global) -> Result<CharSet, AllocError>
        ensures { IfOk result (λ s. s ≡ self.now) }
    {
        let ranges = self.ranges.copy()?;
        Ok(CharSet {
            low: self.low,
            high: self.high,
            ranges,
        })
    }

    /// Whether the character is in the set.
    pub fn has(&self, c: char) -> bool
        ensures { result ≡ in_set self.now c }
    {
        let code = c as u32;
        if code < 128 {
            self.has_ascii(code)
        } else {
            has_code(self.ranges.as_slice(), code)
        }
    }

    /// Whether the character with this code below 128 is in the set.
    pub(crate) fn has_ascii(&self, code: u32) -> bool
        requires { code < 128 }
        ensures { result ≡ in_set self.now code }
    {
        if code < 64 {
            (self.low >> code) & 1 == 1
        } else {
            (self.high >> (code - 64)) & 1 == 1
        }
    }

    pub(crate) fn of_range(range: CharRange) -> CharSet
        requires ordered { range.first ≤ range.last }
        requires within { range.last < 1_114_112 }
        ensures { result ≡ range ∷ [] }
    {
        let ranges = Ranges::One(range);
        CharSet {
            low: bits_of(ranges.as_slice(), 0),
            high: bits_of(ranges.as_slice(), 64),
            ranges,
        }
    }

    pub(crate) fn of_ranges(ranges: Vec<CharRange>) -> Result<CharSet, AllocError>
        requires { rises 0 ranges.items ≡ true }
        ensures { IfOk result (λ s. s ≡ ranges.items) }
    {
        let low = bits_of(&ranges, 0);
        let high = bits_of(&ranges, 64);
        CharSet::of_parts(low, high, ranges)
    }

    /// The set of these ranges, of which the words say the codes below 128.
    pub(crate) fn of_parts(
        low: u64,
        high: u64,
        ranges: Vec<CharRange>,
    ) -> Result<CharSet, AllocError>
        requires rising { rises 0 ranges.items ≡ true }
        requires low { AreBitsOf low ranges.items 0 }
        requires high { AreBitsOf high ranges.items 64 }
        ensures { IfOk result (λ s. s ≡ ranges.items) }
    {
        let ranges = Ranges::of_vec(ranges)?;
        Ok(CharSet { low, high, ranges })
    }

    /// How many ranges it has.
    pub fn range_count(&self) -> usize
        ensures { result ≡ length self.now }
    {
        self.ranges().len()
    }

    pub(crate) fn ranges(&self) -> &[CharRange]
        ensures value { result.now ≡ self.now }
        ensures rising { rises 0 result.now ≡ true }
    {
        self.ranges.as_slice()
    }

    /// Which of the codes below 64 are in the set, a bit for each.
    pub(crate) fn low(&self) -> u64
        ensures { AreBitsOf result self.now 0 }
    {
        self.low
    }

    /// Which of the codes from 64 on and below 128 are in the set, a bit for each.
    pub(crate) fn high(&self) -> u64
        ensures { AreBitsOf result self.now 64 }
    {
        self.high
    }
}
