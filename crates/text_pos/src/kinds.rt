//! Sets of kinds of brackets, as the bits of a number.

ghost use Rattle.std.specs.Prelude.{◌≡◌, ℕ, ◌^◌, ◌<◌, ◌&&◌, ◌||◌, ◌==◌, ◌↔◌, Bool, false, not, IsTrue};
ghost use Rattle.text_pos.specs.KindSet.{is_set, has_kind, only};

/// A set of kinds of brackets, which are numbers below 64.
#[derive(Clone, Copy, Debug, PartialEq, Eq)]
pub struct Kinds {
    /// Bit k says whether kind k is in the set.
    bits: u64,
}

/// Whether a bit of a number is 1. No number has a bit behind its last.
fn has_bit(n: u64, k: u32) -> bool
    ensures { result ≡ is_set n k }
{
    k < 64 && (n >> k) & 1 == 1
}

fn has_any_bit(n: u64) -> bool
    ensures { IsTrue result ↔ ((k : ℕ) × IsTrue (is_set n k)) }
{
    n != 0
}

/// The bits of a number that another doesn't have.
fn bits_without(n: u64, other: u64) -> u64
    ensures { (k : ℕ) → k < 64 → is_set result k ≡ (is_set n k && not (is_set other k)) }
{
    n & !other
}

impl Kinds {
    pub fn empty() -> Kinds
        ensures { (k : ℕ) → has_kind result k ≡ false }
    {
        Kinds { bits: 0 }
    }

    pub fn one(k: u32) -> Kinds
        requires { k < 64 }
        ensures members { (j : ℕ) → has_kind result j ≡ (j == k) }
        ensures value { result ≡ only k }
    {
        Kinds { bits: 1 << k }
    }

    /// The kinds of either set.
    pub fn with(self, other: Kinds) -> Kinds
        ensures { (k : ℕ) → has_kind result k ≡ (has_kind self k || has_kind other k) }
    {
        Kinds {
            bits: self.bits | other.bits,
        }
    }

    /// The kinds of the first set that aren't in the second.
    pub fn without(self, other: Kinds) -> Kinds
        ensures { (k : ℕ) → k < 64 → has_kind result k ≡ (has_kind self k && not (has_kind other k)) }
    {
        Kinds {
            bits: bits_without(self.bits, other.bits),
        }
    }

    /// Whether the sets have a kind in common.
    pub fn meets(self, other: Kinds) -> bool
        ensures { IsTrue result ↔ ((k : ℕ) × IsTrue (has_kind self k && has_kind other k)) }
    {
        has_any_bit(self.bits & other.bits)
    }

    pub fn has(self, k: u32) -> bool
        ensures { result ≡ has_kind self k }
    {
        has_bit(self.bits, k)
    }
}
