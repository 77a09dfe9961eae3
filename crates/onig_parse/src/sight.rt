//! What stands at the front of a pattern text.

ghost use Rattle.std.specs.Prelude.{◌≡◌, ◌≤◌, length, drop, take, min, fold};
ghost use Rattle.std.specs.List.{prefix_len};
ghost use Rattle.syntax_defs.specs.declared.items.Form.TheVariants.{Sign};
ghost use Rattle.syntax_defs.specs.Sights.{begins_with, brace_sight, behind_digits, count_sight, digit_count, digits, is_blank, is_number_start, most_of, number_of, paren_sight, plain_sight, range_sight, sight_at, slash_sight, with_digit};
ghost use Rattle.syntax_defs.specs.Limits.{most_pattern_chars};

use pattern_defs::Anchor;
use syntax_defs::{Bounds, Form, GREATER_COUNT, Options, Sight};

/// Whether this character stands at the front.
pub(crate) fn begins_with(c: char, cs: &[char]) -> bool
    ensures { result ≡ begins_with c cs.now }
{
    match cs {
        [] => false,
        [d, ..] => *d == c,
    }
}

/// How many digits stand at the front.
pub(crate) fn digit_count(cs: &[char]) -> usize
    ensures count { result ≡ digit_count cs.now }
    ensures inside { result ≤ length cs.now }
{
    cs.iter().take_while(|c| c.is_ascii_digit()).count()
}

/// The digits at the front, and what stands behind them.
pub(crate) fn split_digits(cs: &[char]) -> (&[char], &[char])
    ensures front { result.0.now ≡ digits cs.now }
    ensures back { result.1.now ≡ behind_digits cs.now }
{
    cs.split_at(digit_count(cs))
}

/// A number with one digit more. A million stands for each greater number.
fn with_digit(n: u32, c: char) -> u32
    ensures { result ≡ with_digit n c }
{
    let digit = (c as u32).saturating_sub(48);
    (u64::from(n) * 10 + u64::from(digit)).min(u64::from(GREATER_COUNT)) as u32
}

/// The number of these digits.
pub(crate) fn number_of(digits: &[char]) -> u32
    ensures { result ≡ number_of digits.now }
{
    digits.iter().fold(0, |n, c| with_digit(n, *c))
}

fn most_of(digits: &[char]) -> Option<u32>
    ensures { result ≡ most_of digits.now }
{
    match digits {
        [] => None,
        _ => Some(number_of(digits)),
    }
}

/// A repeat, or the character itself where the digits and the end of an interval don't fit.
fn range_sight(least: &[char], most: &[char], rest: &[char]) -> Sight
    requires least { length least.now ≤ most_pattern_chars }
    requires most { length most.now ≤ most_pattern_chars }
    ensures { result ≡ range_sight least.now most.now rest.now }
{
    if begins_with('}', rest) && !(least.is_empty() && most.is_empty()) {
        Sight::Repeat(Bounds {
            least: number_of(least),
            most: most_of(most),
            form: Form::Interval,
            length: (least.len() + most.len() + 3) as u32,
        })
    } else {
        Sight::Single
    }
}

/// What stands behind a `(`.
fn paren_sight(cs: &[char]) -> Sight
    ensures { result ≡ paren_sight cs.now }
{
    match cs {
        ['?', '#', ..] => Sight::Comment,
        _ => Sight::Open,
    }
}

/// What stands behind the first digits of an interval.
fn count_sight(least: &[char], rest: &[char]) -> Sight
    requires least { length least.now ≤ most_pattern_chars }
    requires rest { length rest.now ≤ most_pattern_chars }
    ensures { result ≡ count_sight least.now rest.now }
{
    match rest {
        ['}', ..] if !least.is_empty() => Sight::Repeat(Bounds {
            least: number_of(least),
            most: Some(number_of(least)),
            form: Form::Count,
            length: (least.len() + 2) as u32,
        }),
        [',', behind @ ..] => {
            let (most, rest) = split_digits(behind);
            range_sight(least, most, rest)
        }
        _ => Sight::Single,
    }
}

/// What stands behind a `{`.
fn brace_sight(cs: &[char]) -> Sight
    requires { length cs.now ≤ most_pattern_chars }
    ensures { result ≡ brace_sight cs.now }
{
    let (least, rest) = split_digits(cs);
    count_sight(least, rest)
}

fn edge(anchor: Anchor, length: usize) -> Sight
    ensures { result ≡ Sight.Edge anchor length }
{
    Sight::Edge { anchor, length }
}

/// What stands behind a backslash.
fn slash_sight(cs: &[char]) -> Sight
    ensures { result ≡ slash_sight cs.now }
{
    match cs {
        ['A', ..] => edge(Anchor::First, 2),
        ['G', ..] => edge(Anchor::Mark, 2),
        ['z', ..] => edge(Anchor::End, 2),
        ['Z', ..] => edge(Anchor::LastEnd, 2),
        ['b', ..] => edge(Anchor::WordEdge, 2),
        ['B', ..] => edge(Anchor::NoWordEdge, 2),
        ['k', ..] => Sight::Reference,
        ['1'..='9', ..] => Sight::Number,
        _ => Sight::Single,
    }
}

/// What option `x` passes over.
fn is_blank(c: char) -> bool
    ensures { result ≡ is_blank c }
{
    matches!(c, '\t' | '\n' | '\x0c' | '\r' | ' ')
}

/// What stands at the front of the rest of a text.
pub(crate) fn sight_of(options: Options, cs: &[char]) -> Sight
    requires { length cs.now ≤ most_pattern_chars }
    ensures { result ≡ sight_at options cs.now }
{
    let [first, rest @ ..] = cs else {
        return Sight::End;
    };
    match *first {
        '|' => Sight::Bar,
        ')' => Sight::Close,
        '(' => paren_sight(rest),
        '*' => repeat(0, None),
        '+' => repeat(1, None),
        '?' => repeat(0, Some(1)),
        '{' => brace_sight(rest),
        '^' => edge(Anchor::LineStart, 1),
        '$' => edge(Anchor::LineEnd, 1),
        '\\' => slash_sight(rest),
        c => plain_sight(options, c),
    }
}

/// A repeat of one character.
fn repeat(least: u32, most: Option<u32>) -> Sight
    ensures { result ≡ Sight.Repeat (record { least = least; most = most; form = Sign; length = 1 }) }
{
    Sight::Repeat(Bounds {
        least,
        most,
        form: Form::Sign,
        length: 1,
    })
}

fn plain_sight(options: Options, c: char) -> Sight
    ensures { result ≡ plain_sight options c }
{
    if options.spaced && is_blank(c) {
        Sight::Blank
    } else if options.spaced && c == '#' {
        Sight::Remark
    } else {
        Sight::Single
    }
}
