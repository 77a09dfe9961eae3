//! Reading an escape: one character, or a set of characters.

ghost use Rattle.std.specs.Prelude.{◌≡◌, ◌<◌, ◌≤◌, ◌+◌, ℕ, List, length, drop, slice_get, IfOk, IfSome};
ghost use Rattle.syntax_defs.specs.Reading.{Gives};
ghost use Rattle.syntax_defs.specs.Escapes.{control_of, set_of, closing, property_to, property_at, longer_escape, escape_by, behind_backslash, escape_at};
ghost use Rattle.onig_class.specs.Fits.{IsEscape, IsEscaped};
ghost use Rattle.syntax_defs.specs.Limits.{most_pattern_chars};

use crate::hex::{hex, unicode};
use crate::names::property_by;
use crate::sets::named_set;
use char_sets::{CharSet, NamedSet, NamedSets};
use std::alloc::Global;
use syntax_defs::PatternRefusal;

/// What an escape stands for: a character, or a named set or, where the flag is set, its complement.
#[derive(Clone, Copy, Debug, PartialEq, Eq)]
pub(crate) enum Escape {
    Char(char),
    Set(NamedSet, bool),
}

/// What an escape stands for: one character, or a set of characters.
#[derive(Debug, Drop)]
pub enum Escaped {
    Char(char),
    Set(CharSet),
}

/// The character that a letter stands for.
fn control_of(c: char) -> Option<char>
    ensures { result ≡ control_of c }
{
    match c {
        't' => Some('\t'),
        'n' => Some('\n'),
        'v' => Some('\x0b'),
        'f' => Some('\x0c'),
        'r' => Some('\r'),
        'a' => Some('\x07'),
        'e' => Some('\x1b'),
        _ => None,
    }
}

/// The set that a letter stands for, and whether its complement is meant.
fn set_of(c: char) -> Option<(NamedSet, bool)>
    ensures { result ≡ set_of c }
{
    match c {
        'd' => Some((NamedSet::Digit, false)),
        'w' => Some((NamedSet::Word, false)),
        's' => Some((NamedSet::Space, false)),
        'h' => Some((NamedSet::Xdigit, false)),
        'D' => Some((NamedSet::Digit, true)),
        'W' => Some((NamedSet::Word, true)),
        'S' => Some((NamedSet::Space, true)),
        'H' => Some((NamedSet::Xdigit, true)),
        _ => None,
    }
}

/// Where the first `}` stands.
fn closing(rest: &[char]) -> Option<usize>
    ensures value { result ≡ closing rest.now }
    ensures inside { IfSome result (λ k. k < length rest.now) }
{
    rest.iter().position(|c| *c == '}')
}

/// A property, as `\p{Alpha}`.
#[tactic(auto, unfolding(syntax_defs::specs::Escapes::property_at))]
fn property(
    alloc: Global,
    text: &[char],
    at: usize,
    negated: bool,
) -> Result<(Escape, usize), PatternRefusal>
    requires there { at + 2 ≤ length text.now }
    requires short { length text.now ≤ most_pattern_chars }
    ensures value { Gives IsEscape text.now result (property_at at negated (drop (at + 2) text.now)) }
    ensures place { IfOk result (λ found. (at < found.1) × (found.1 ≤ length text.now)) }
{
    match &text[at + 2..] {
        ['{', rest @ ..] => match closing(rest) {
            None => Err(PatternRefusal::Syntax {
                at: text.len() as u64,
            }),
            Some(k) => named(alloc, text, at, k, negated),
        },
        _ => Err(PatternRefusal::LeftOut { at: at as u64 }),
    }
}

/// The set that is named by the `long` characters behind the brace.
fn named(
    alloc: Global,
    text: &[char],
    at: usize,
    long: usize,
    negated: bool,
) -> Result<(Escape, usize), PatternRefusal>
    requires there { at + long + 4 ≤ length text.now }
    requires short { length text.now ≤ most_pattern_chars }
    ensures value { (rest : List ℕ) → drop (at + 3) text.now ≡ rest
        → Gives IsEscape text.now result (property_to at negated rest (Some long)) }
    ensures place { IfOk result (λ found. (at < found.1) × (found.1 ≤ length text.now)) }
{
    let name = &text[at + 3..at + 3 + long];
    let Ok(found) = property_by(alloc, negated, name) else {
        return Err(PatternRefusal::Memory);
    };
    match found {
        None => Err(PatternRefusal::LeftOut { at: at as u64 }),
        Some((set, negated)) => Ok((Escape::Set(set, negated), at + long + 4)),
    }
}

/// An escape by `\x`, `\u`, `\p` or `\P`, or a character that is no ASCII letter or digit.
fn longer_escape(
    alloc: Global,
    text: &[char],
    at: usize,
    c: char,
) -> Result<(Escape, usize), PatternRefusal>
    requires there { at + 2 ≤ length text.now }
    requires short { length text.now ≤ most_pattern_chars }
    ensures value { Gives IsEscape text.now result (longer_escape at c (drop (at + 2) text.now)) }
    ensures place { IfOk result (λ found. (at < found.1) × (found.1 ≤ length text.now)) }
{
    match c {
        'x' => hex(text, at),
        'u' => unicode(text, at),
        'p' => property(alloc, text, at, false),
        'P' => property(alloc, text, at, true),
        _ if c.is_ascii_alphanumeric() => Err(PatternRefusal::LeftOut { at: at as u64 }),
        _ => Ok((Escape::Char(c), at + 2)),
    }
}

/// An escape with the character `c` behind its backslash.
#[tactic(auto, unfolding(syntax_defs::specs::Escapes::escape_by))]
fn escape_by(
    alloc: Global,
    text: &[char],
    at: usize,
    c: char,
) -> Result<(Escape, usize), PatternRefusal>
    requires there { at + 2 ≤ length text.now }
    requires short { length text.now ≤ most_pattern_chars }
    ensures value { Gives IsEscape text.now result (escape_by at c (drop (at + 2) text.now)) }
    ensures place { IfOk result (λ found. (at < found.1) × (found.1 ≤ length text.now)) }
{
    if let Some(control) = control_of(c) {
        return Ok((Escape::Char(control), at + 2));
    }
    if let Some((set, negated)) = set_of(c) {
        return Ok((Escape::Set(set, negated), at + 2));
    }
    longer_escape(alloc, text, at, c)
}

/// An escape, from its backslash on.
#[tactic(auto, unfolding(syntax_defs::specs::Escapes::behind_backslash))]
pub(crate) fn escape_at(
    alloc: Global,
    text: &[char],
    at: usize,
) -> Result<(Escape, usize), PatternRefusal>
    requires there { at < length text.now }
    requires short { length text.now ≤ most_pattern_chars }
    ensures value { Gives IsEscape text.now result (behind_backslash at (drop (at + 1) text.now)) }
    ensures place { IfOk result (λ found. (at < found.1) × (found.1 ≤ length text.now)) }
{
    match &text[at + 1..] {
        [] => Err(PatternRefusal::Syntax { at: at as u64 }),
        [c, ..] => escape_by(alloc, text, at, *c),
    }
}

/// An escape that is one character or a set of characters, from its backslash at `at` on, and the place behind it.
pub fn read_escape(
    alloc: Global,
    sets: &mut NamedSets,
    text: &[char],
    at: usize,
) -> Result<(Escaped, usize), PatternRefusal>
    requires there { slice_get text.now at ≡ Some 92 }
    requires short { length text.now ≤ most_pattern_chars }
    ensures value { Gives IsEscaped text.now result (escape_at at (drop at text.now)) }
    ensures place { IfOk result (λ found. (at < found.1) × (found.1 ≤ length text.now)) }
{
    made(alloc, sets, text, at)
}

fn made(
    alloc: Global,
    sets: &mut NamedSets,
    text: &[char],
    at: usize,
) -> Result<(Escaped, usize), PatternRefusal>
    requires there { at < length text.now }
    requires short { length text.now ≤ most_pattern_chars }
    ensures value { Gives IsEscaped text.now result (behind_backslash at (drop (at + 1) text.now)) }
    ensures place { IfOk result (λ found. (at < found.1) × (found.1 ≤ length text.now)) }
{
    let (found, next) = escape_at(alloc, text, at)?;
    match found {
        Escape::Char(c) => Ok((Escaped::Char(c), next)),
        Escape::Set(set, negated) => match named_set(alloc, sets, set, negated) {
            Ok(set) => Ok((Escaped::Set(set), next)),
            Err(_) => Err(PatternRefusal::Memory),
        },
    }
}
