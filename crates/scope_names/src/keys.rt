//! Keys of scope names, and bits by which a list tells most keys that no name of it has.

ghost use Rattle.std.specs.Prelude.{◌≡◌, ◌<◌};
ghost use Rattle.scope_names.specs.Keys.{key_from, key_of, first_key, with_bit, has_bit, no_keys, with_key, may_have};

use crate::numbers::{SEED, mixed};

/// The number that is made of a name up to its second dot, or up to its first where one was met already.
fn key_from(name: &[u8], met: bool) -> u64
    ensures { result ≡ key_from SEED met name.now }
{
    let mut number = SEED;
    let mut dotted = met;
    for c in name {
        if *c == b'.' {
            if dotted {
                return number;
            }
            dotted = true;
        }
        number = mixed(number, u64::from(*c));
    }
    number
}

/// The number that is made of a name's first two parts, or of the one that it has.
pub fn key_of(name: &[u8]) -> u64
    ensures { result ≡ key_of name.now }
{
    key_from(name, false)
}

/// The number that is made of a name's first part.
pub(crate) fn first_key(name: &[u8]) -> u64
    ensures { result ≡ first_key name.now }
{
    key_from(name, true)
}

/// Which keys the names of a list have: a bit for each of three parts of a key. Most keys that none of them has are told
/// by these.
#[derive(Clone, Copy)]
pub(crate) struct KeyBits {
    low: u64,
    middle: u64,
    high: u64,
}

fn with_bit(word: u64, bit: u64) -> u64
    requires { bit < 64 }
    ensures { result ≡ with_bit word bit }
{
    word | 1 << bit
}

fn has_bit(word: u64, bit: u64) -> bool
    requires { bit < 64 }
    ensures { result ≡ has_bit word bit }
{
    (word >> bit) & 1 == 1
}

impl KeyBits {
    /// Those of no names.
    pub(crate) fn none() -> KeyBits
        ensures { result ≡ no_keys }
    {
        KeyBits {
            low: 0,
            middle: 0,
            high: 0,
        }
    }

    /// The bits with those of a name's key.
    pub(crate) fn with(self, key: u64) -> KeyBits
        ensures { result ≡ with_key self key }
    {
        KeyBits {
            low: with_bit(self.low, key % 64),
            middle: with_bit(self.middle, (key >> 16) % 64),
            high: with_bit(self.high, (key >> 32) % 64),
        }
    }

    /// Whether a name may have this key.
    pub(crate) fn may_have(self, key: u64) -> bool
        ensures { result ≡ may_have self key }
    {
        has_bit(self.low, key % 64)
            && has_bit(self.middle, (key >> 16) % 64)
            && has_bit(self.high, (key >> 32) % 64)
    }
}
