//! The digits at the front of a text, and the number that they stand for.

ghost use Rattle.std.specs.Prelude.{◌≡◌, ℕ, ◌^◌, min, chars, IfOk};
ghost use Rattle.std.specs.Char.{is_ascii_digit};
ghost use Rattle.std.specs.List.{prefix_len};
ghost use Rattle.line_defs.specs.ScopeTexts.{digits_at, number_of};

use std::alloc::{AllocError, Global};

/// A number that no group has. Greater numbers are told as this one.
pub(crate) const NO_GROUP: u64 = 1 << 32;

/// How many digits stand at the front of a text.
fn digit_count(text: &[char]) -> usize
    ensures { result ≡ prefix_len is_ascii_digit text.now }
{
    text.iter().take_while(|c| c.is_ascii_digit()).count()
}

/// The digits at the front of a text.
pub(crate) fn digits_at(text: &[char]) -> &[char]
    ensures { result.now ≡ digits_at text.now }
{
    &text[..digit_count(text)]
}

/// The characters of a text.
pub(crate) fn characters_of(alloc: Global, text: &str) -> Result<Vec<char>, AllocError>
    ensures { IfOk result (λ all. all.items ≡ chars text.now) }
{
    text.chars().collect(alloc)
}

/// The number that some digits stand for, or `NO_GROUP` where it is greater.
pub(crate) fn number_of(digits: &[char]) -> u64
    ensures { result ≡ min (number_of digits.now) (2 ^ 32) }
{
    let mut number = 0;
    for c in digits {
        let digit = u64::from(*c).saturating_sub(48);
        number = (number * 10 + digit).min(NO_GROUP);
    }
    number
}
