//! Escapes that write a character by hexadecimal digits.

ghost use Rattle.std.specs.Prelude.{◌≡◌, ◌<◌, ◌≤◌, ◌+◌, ◌^◌, ℕ, List, true, length, take, drop, IfOk};
ghost use Rattle.std.specs.List.{list_all};
ghost use Rattle.std.specs.Char.{is_digit};
ghost use Rattle.syntax_defs.specs.Reading.{Gives};
ghost use Rattle.syntax_defs.specs.Escapes.{hex_count, hex_value, scalar_or_fault, byte_at, unicode_at, brace_at, braced_at, hex_at};
ghost use Rattle.onig_class.specs.Fits.{IsEscape};
ghost use Rattle.onig_class.specs.Digits.{AreDigits};
ghost use Rattle.syntax_defs.specs.Limits.{most_pattern_chars};

use crate::escape::Escape;
use syntax_defs::PatternRefusal;

/// How many hexadecimal digits a text begins with, at most `most`.
fn hex_count(rest: &[char], most: usize) -> usize
    ensures value { result ≡ hex_count most rest.now }
    ensures digits { AreDigits most result rest.now }
{
    digits_in(rest, most)
}

fn digits_in(rest: &[char], most: usize) -> usize
    ensures { result ≡ hex_count most rest.now }
{
    rest.iter()
        .take(most)
        .take_while(|c| c.is_digit(16))
        .count()
}

/// The number that hexadecimal digits write.
fn hex_value(digits: &[char]) -> u32
    requires few { length digits.now ≤ 8 }
    requires all { list_all (λ c. is_digit c 16) digits.now ≡ true }
    ensures { result ≡ hex_value digits.now }
{
    let mut value = 0;
    for c in digits {
        value = value * 16 + c.to_digit(16).unwrap_or(0);
    }
    value
}

/// The hexadecimal digits that a text begins with, at most `most`: how many, and the number that they write.
fn hex_digits(rest: &[char], most: usize) -> (usize, u32)
    requires { most ≤ 8 }
    ensures count { result.0 ≡ hex_count most rest.now }
    ensures value { result.1 ≡ hex_value (take result.0 rest.now) }
    ensures inside { result.0 ≤ length rest.now }
{
    let count = hex_count(rest, most);
    (count, hex_value(&rest[..count]))
}

/// The character with a code, for an escape at `at` and up to `next`.
fn scalar(code: u32, at: usize, next: usize) -> Result<(Escape, usize), PatternRefusal>
    requires { at ≤ most_pattern_chars }
    ensures value { (text rest : List ℕ) → drop next text ≡ rest
        → Gives IsEscape text result (scalar_or_fault at code next rest) }
    ensures place { IfOk result (λ found. found.1 ≡ next) }
{
    match char::from_u32(code) {
        Some(c) => Ok((Escape::Char(c), next)),
        None => Err(PatternRefusal::Syntax { at: at as u64 }),
    }
}

/// `\xH` and `\xHH`.
#[tactic(auto, unfolding(syntax_defs::specs::Escapes::byte_at))]
fn byte(text: &[char], at: usize) -> Result<(Escape, usize), PatternRefusal>
    requires there { at + 2 ≤ length text.now }
    requires short { length text.now ≤ most_pattern_chars }
    ensures value { Gives IsEscape text.now result (byte_at at (drop (at + 2) text.now)) }
    ensures place { IfOk result (λ found. (at < found.1) × (found.1 ≤ length text.now)) }
{
    let (count, value) = hex_digits(&text[at + 2..], 2);
    if count == 0 {
        return Err(PatternRefusal::Syntax { at: at as u64 });
    }
    if value > 0x7f {
        return Err(PatternRefusal::LeftOut { at: at as u64 });
    }
    Ok((Escape::Char(value as u8 as char), at + 2 + count))
}

/// `\uHHHH`.
#[tactic(auto, unfolding(syntax_defs::specs::Escapes::unicode_at))]
pub(crate) fn unicode(text: &[char], at: usize) -> Result<(Escape, usize), PatternRefusal>
    requires there { at + 2 ≤ length text.now }
    requires short { length text.now ≤ most_pattern_chars }
    ensures value { Gives IsEscape text.now result (unicode_at at (drop (at + 2) text.now)) }
    ensures place { IfOk result (λ found. (at < found.1) × (found.1 ≤ length text.now)) }
{
    let (count, value) = hex_digits(&text[at + 2..], 4);
    match count {
        0 => Err(PatternRefusal::Syntax { at: at as u64 }),
        1..=3 => Err(PatternRefusal::LeftOut { at: at as u64 }),
        _ => scalar(value, at, at + 2 + count),
    }
}

/// The closing brace at `next`, behind digits that write a code.
fn brace(
    text: &[char],
    code: u32,
    at: usize,
    next: usize,
) -> Result<(Escape, usize), PatternRefusal>
    requires there { next ≤ length text.now }
    requires before { at ≤ next }
    requires short { length text.now ≤ most_pattern_chars }
    ensures value { (rest : List ℕ) → drop next text.now ≡ rest
        → Gives IsEscape text.now result (brace_at at code next rest) }
    ensures place { IfOk result (λ found. (at < found.1) × (found.1 ≤ length text.now)) }
{
    match &text[next..] {
        [] => Err(PatternRefusal::Syntax { at: next as u64 }),
        ['}', ..] => scalar(code, at, next + 1),
        _ => Err(PatternRefusal::LeftOut { at: at as u64 }),
    }
}

/// `\x{H}` with at most eight digits.
#[tactic(auto, unfolding(syntax_defs::specs::Escapes::braced_at))]
fn braced(text: &[char], at: usize) -> Result<(Escape, usize), PatternRefusal>
    requires there { at + 3 ≤ length text.now }
    requires short { length text.now ≤ most_pattern_chars }
    ensures value { Gives IsEscape text.now result (braced_at at (drop (at + 3) text.now)) }
    ensures place { IfOk result (λ found. (at < found.1) × (found.1 ≤ length text.now)) }
{
    let rest = &text[at + 3..];
    if rest.is_empty() {
        return Err(PatternRefusal::Syntax { at: at as u64 + 3 });
    }
    let (count, value) = hex_digits(rest, 8);
    if count == 0 {
        return Err(PatternRefusal::Syntax { at: at as u64 });
    }
    brace(text, value, at, at + 3 + count)
}

/// An escape by `\x`.
#[tactic(auto, unfolding(syntax_defs::specs::Escapes::hex_at))]
pub(crate) fn hex(text: &[char], at: usize) -> Result<(Escape, usize), PatternRefusal>
    requires there { at + 2 ≤ length text.now }
    requires short { length text.now ≤ most_pattern_chars }
    ensures value { Gives IsEscape text.now result (hex_at at (drop (at + 2) text.now)) }
    ensures place { IfOk result (λ found. (at < found.1) × (found.1 ≤ length text.now)) }
{
    match &text[at + 2..] {
        [] => Err(PatternRefusal::Syntax { at: at as u64 }),
        ['{', ..] => braced(text, at),
        _ => byte(text, at),
    }
}
