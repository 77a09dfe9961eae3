//! Numbers that are made of scope names and of lists, part by part.

ghost use Rattle.std.specs.Prelude.{◌≡◌};
ghost use Rattle.scope_names.specs.Numbers.{mixed, name_number};

/// What a number made of a text or a list is multiplied by for each part: the prime of the hash FNV-1a of 64 bits.
pub const FACTOR: u64 = 1099511628211;

/// The number of nothing: the offset of that hash.
pub const SEED: u64 = 14695981039346656037;

/// The number of a list with one more part, of the numbers of both.
pub fn mixed(number: u64, part: u64) -> u64
    ensures { result ≡ mixed number part }
{
    number.wrapping_mul(FACTOR).wrapping_add(part)
}

/// The number that is made of a name.
pub fn name_number(name: &[u8]) -> u64
    ensures { result ≡ name_number name.now }
{
    let mut number = SEED;
    for c in name {
        number = mixed(number, u64::from(*c));
    }
    number
}
