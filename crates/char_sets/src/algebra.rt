//! Sets made of other sets: union, intersection, difference, complement, and both ASCII cases.

ghost use Rattle.std.specs.Prelude.{◌≡◌, ◌<◌, ℕ, Bool, true, ◌&&◌, ◌||◌, not, IfOk};
ghost use Rattle.std.specs.Int.{bit_at};
ghost use Rattle.char_sets.specs.Ranges.{bit, in_set, rises, IsSetOf};
ghost use Rattle.char_sets.specs.Case.{other_case, in_either_case, is_missing};
ghost use Rattle.char_sets.specs.Keep.{kept};

use crate::char_set::{CharRange, CharSet};
use crate::stretch::{END, close, place_behind, stretch_from};
use std::alloc::{AllocError, Global};

/// What a set made of two has.
#[derive(Clone, Copy, Debug)]
pub(crate) enum Keep {
    Either,
    Both,
    FirstAlone,
}

impl Keep {
    fn holds(self, first: bool, second: bool) -> bool
        ensures { result ≡ kept self first second }
    {
        match self {
            Keep::Either => first | second,
            Keep::Both => first & second,
            Keep::FirstAlone => first & !second,
        }
    }

    /// The same of 64 codes at once, a bit for each.
    fn bits(self, first: u64, second: u64) -> u64
        ensures { (k : ℕ) (a b : Bool) → k < 64 → bit_at first k ≡ bit a → bit_at second k ≡ bit b
            → bit_at result k ≡ bit (kept self a b) }
    {
        match self {
            Keep::Either => first | second,
            Keep::Both => first & second,
            Keep::FirstAlone => first & !second,
        }
    }
}

/// The ranges of the set made of two. It goes over the codes from one stretch to the next; `start` is where the range
/// that isn't yet written began, and `in_a` and `in_b` are the ranges of each set that end at the present code or
/// after it.
fn merged(
    alloc: Global,
    a: &[CharRange],
    b: &[CharRange],
    keep: Keep,
) -> Result<Vec<CharRange>, AllocError>
    requires first { rises 0 a.now ≡ true }
    requires second { rises 0 b.now ≡ true }
    ensures rising { IfOk result (λ ranges. rises 0 ranges.items ≡ true) }
    ensures members { IfOk result (λ ranges. IsSetOf ranges.items (λ c. kept keep (in_set a.now c) (in_set b.now c))) }
{
    let mut ranges = Vec::new(alloc);
    let mut start = 0;
    let mut at = 0;
    let mut in_a = 0;
    let mut in_b = 0;
    while at < END {
        let first = stretch_from(a, in_a, at);
        let second = stretch_from(b, in_b, at);
        let end = first.end.min(second.end);
        if !keep.holds(first.has, second.has) {
            close(&mut ranges, start, at)?;
            start = end;
        }
        in_a = place_behind(a, in_a, end);
        in_b = place_behind(b, in_b, end);
        at = end;
    }
    close(&mut ranges, start, at)?;
    Ok(ranges)
}

/// The set made of two.
fn joined(alloc: Global, a: &CharSet, b: &CharSet, keep: Keep) -> Result<CharSet, AllocError>
    ensures { IfOk result (λ s. IsSetOf s (λ c. kept keep (in_set a.now c) (in_set b.now c))) }
{
    let ranges = merged(alloc, a.ranges(), b.ranges(), keep)?;
    let low = keep.bits(a.low(), b.low());
    let high = keep.bits(a.high(), b.high());
    CharSet::of_parts(low, high, ranges)
}

/// The other ASCII case of a letter, and any other code itself.
fn in_other_case(code: u32) -> u32
    requires { code < 128 }
    ensures value { result ≡ other_case code }
    ensures within { result < 128 }
{
    match code {
        65..=90 => code + 32,
        97..=122 => code - 32,
        _ => code,
    }
}

/// Whether the character with this code isn't in the set, and its other ASCII case is.
fn is_missing(set: &CharSet, code: u32) -> bool
    requires { code < 123 }
    ensures { result ≡ is_missing set.now code }
{
    set.has_ascii(in_other_case(code)) && !set.has_ascii(code)
}

/// The ASCII letters whose other case is in the set and that are not in it themselves, a range for each.
fn in_other_case_of(alloc: Global, set: &CharSet) -> Result<Vec<CharRange>, AllocError>
    ensures rising { IfOk result (λ out. rises 0 out.items ≡ true) }
    ensures members { IfOk result (λ out. IsSetOf out.items (is_missing set.now)) }
{
    let mut out = Vec::new(alloc);
    for code in 65..123 {
        if is_missing(set, code) {
            out.push(CharRange {
                first: code,
                last: code,
            })?;
        }
    }
    Ok(out)
}

impl CharSet {
    /// The characters of either set.
    pub fn union(&self, alloc: Global, other: &CharSet) -> Result<CharSet, AllocError>
        ensures { IfOk result (λ s. IsSetOf s (λ c. in_set self.now c || in_set other.now c)) }
    {
        joined(alloc, self, other, Keep::Either)
    }

    /// The characters of both sets.
    pub fn meet(&self, alloc: Global, other: &CharSet) -> Result<CharSet, AllocError>
        ensures { IfOk result (λ s. IsSetOf s (λ c. in_set self.now c && in_set other.now c)) }
    {
        joined(alloc, self, other, Keep::Both)
    }

    /// The characters of this set that the other hasn't.
    pub fn without(&self, alloc: Global, other: &CharSet) -> Result<CharSet, AllocError>
        ensures { IfOk result (λ s. IsSetOf s (λ c. in_set self.now c && not (in_set other.now c))) }
    {
        joined(alloc, self, other, Keep::FirstAlone)
    }

    /// All characters that aren't in the set.
    pub fn complement(&self, alloc: Global) -> Result<CharSet, AllocError>
        ensures { IfOk result (λ s. IsSetOf s (λ c. not (in_set self.now c))) }
    {
        joined(alloc, &CharSet::all(), self, Keep::FirstAlone)
    }

    /// The set, and with each ASCII letter in it the same letter in the other case.
    pub fn with_other_case(&self, alloc: Global) -> Result<CharSet, AllocError>
        ensures { IfOk result (λ s. IsSetOf s (in_either_case self.now)) }
    {
        let letters = in_other_case_of(alloc, self)?;
        if letters.is_empty() {
            return self.copy(alloc);
        }
        self.union(alloc, &CharSet::of_ranges(letters)?)
    }
}
