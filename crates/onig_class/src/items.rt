//! Items of a class: one character, an escape, or a named bracket.

ghost use Rattle.std.specs.Prelude.{◌≡◌, ◌<◌, ◌≤◌, ◌+◌, ℕ, List, length, drop, IfOk, IfErr, IfSome};
ghost use Rattle.std.specs.List.{prefix_len};
ghost use Rattle.char_sets.specs.Named.{is_word};
ghost use Rattle.char_sets.specs.Ranges.{IsSetOf};
ghost use Rattle.syntax_defs.specs.Reading.{Gives};
ghost use Rattle.syntax_defs.specs.Classes.{name_length, named_by, behind_colon, bracket_at, behind_class_backslash, behind_bracket, item_at, char_of, range_char_at, range_end, range_or_one, member_at};
ghost use Rattle.syntax_defs.specs.Sights.{begins_with};
ghost use Rattle.onig_class.specs.Fits.{IsEscape, IsSingle};
ghost use Rattle.syntax_defs.specs.Limits.{most_pattern_chars};

use crate::escape::{Escape, escape_at};
use crate::names::named_bracket;
use crate::sets::{char_range, named_set, one_char};
use char_sets::{CharSet, NamedSets, is_word_char};
use std::alloc::{AllocError, Global};
use syntax_defs::PatternRefusal;

/// How many word characters a text begins with.
fn word_length(rest: &[char]) -> usize
    ensures value { result ≡ prefix_len is_word rest.now }
    ensures inside { result ≤ length rest.now }
{
    rest.iter().take_while(|c| is_word_char(**c)).count()
}

/// How long the name is that a text begins with: an ASCII letter or `_`, and word characters behind it.
fn name_length(rest: &[char]) -> usize
    ensures value { result ≡ name_length rest.now }
    ensures inside { result ≤ length rest.now }
{
    match rest {
        [c, behind @ ..] if c.is_ascii_alphabetic() || *c == '_' => 1 + word_length(behind),
        _ => 0,
    }
}

/// A name and `:]`, from `from` on: whether it is a complement, and where the name begins and ends.
fn named_by(negated: bool, from: usize, rest: &[char]) -> Option<(bool, usize, usize)>
    requires { from ≤ 2 }
    ensures value { result ≡ named_by negated from rest.now }
    ensures inside { IfSome result (λ b. (b.1 ≤ b.2) × (b.2 + 2 ≤ from + length rest.now)) }
{
    let long = name_length(rest);
    if long > 0 && rest[long..].starts_with(&[':', ']']) {
        return Some((negated, from, from + long));
    }
    None
}

#[tactic(auto, unfolding(syntax_defs::specs::Classes::behind_colon))]
fn behind_colon(rest: &[char]) -> Option<(bool, usize, usize)>
    ensures value { result ≡ behind_colon rest.now }
    ensures inside { IfSome result (λ b. (b.1 ≤ b.2) × (b.2 + 1 ≤ length rest.now)) }
{
    match rest {
        [] => named_by(false, 1, rest),
        ['^', behind @ ..] => named_by(true, 2, behind),
        [_, ..] => named_by(false, 1, rest),
    }
}

/// The bracket that begins before this text, if one does: whether it is a complement, and where its name begins
/// and ends.
#[tactic(auto, unfolding(syntax_defs::specs::Classes::bracket_at))]
pub(crate) fn bracket_at(rest: &[char]) -> Option<(bool, usize, usize)>
    ensures value { result ≡ bracket_at rest.now }
    ensures inside { IfSome result (λ b. (b.1 ≤ b.2) × (b.2 + 2 ≤ length rest.now)) }
{
    match rest {
        [':', behind @ ..] => behind_colon(behind),
        _ => None,
    }
}

/// A bracket, from its `[` on.
#[tactic(auto, unfolding(syntax_defs::specs::Classes::behind_bracket))]
fn bracket(text: &[char], at: usize) -> Result<(Escape, usize), PatternRefusal>
    requires there { at < length text.now }
    requires short { length text.now ≤ most_pattern_chars }
    ensures value { Gives IsEscape text.now result (behind_bracket at (drop (at + 1) text.now)) }
    ensures place { IfOk result (λ found. (at < found.1) × (found.1 ≤ length text.now)) }
{
    let rest = &text[at + 1..];
    match bracket_at(rest) {
        None => Err(PatternRefusal::Syntax { at: at as u64 }),
        Some((negated, from, to)) => match named_bracket(&rest[from..to]) {
            None => Err(PatternRefusal::LeftOut { at: at as u64 }),
            Some(set) => Ok((Escape::Set(set, negated), at + to + 3)),
        },
    }
}

/// An escape in a class, from its backslash on.
#[tactic(auto, unfolding(syntax_defs::specs::Classes::behind_class_backslash))]
fn class_escape(alloc: Global, text: &[char], at: usize) -> Result<(Escape, usize), PatternRefusal>
    requires there { at < length text.now }
    requires short { length text.now ≤ most_pattern_chars }
    ensures value { Gives IsEscape text.now result (behind_class_backslash at (drop (at + 1) text.now)) }
    ensures place { IfOk result (λ found. (at < found.1) × (found.1 ≤ length text.now)) }
{
    match &text[at + 1..] {
        [] => Err(PatternRefusal::Syntax { at: at as u64 }),
        ['b', ..] => Ok((Escape::Char('\x08'), at + 2)),
        [_, ..] => escape_at(alloc, text, at),
    }
}

/// One character or a set.
#[tactic(auto, unfolding(syntax_defs::specs::Classes::item_at))]
fn item_at(alloc: Global, text: &[char], at: usize) -> Result<(Escape, usize), PatternRefusal>
    requires there { at < length text.now }
    requires short { length text.now ≤ most_pattern_chars }
    ensures value { Gives IsEscape text.now result (item_at at (drop at text.now)) }
    ensures place { IfOk result (λ found. (at < found.1) × (found.1 ≤ length text.now)) }
{
    match &text[at..] {
        [] => Err(PatternRefusal::Syntax { at: at as u64 }),
        ['\\', ..] => class_escape(alloc, text, at),
        ['[', ..] => bracket(text, at),
        [c, ..] => Ok((Escape::Char(*c), at + 1)),
    }
}

/// The character that an escape in a class stands for, if it stands for one.
fn escaped_char(
    alloc: Global,
    text: &[char],
    at: usize,
) -> Result<Option<(char, usize)>, PatternRefusal>
    requires there { at < length text.now }
    requires short { length text.now ≤ most_pattern_chars }
    ensures value { IfOk result (λ single. IsSingle text.now single
        (char_of (behind_class_backslash at (drop (at + 1) text.now)))) }
    ensures place { IfOk result (λ single. IfSome single (λ found. (at < found.1) × (found.1 ≤ length text.now))) }
    ensures memory { IfErr result (λ e. e ≡ PatternRefusal.Memory) }
{
    match class_escape(alloc, text, at) {
        Ok((Escape::Char(c), next)) => Ok(Some((c, next))),
        Ok((Escape::Set(_, _), _)) => Ok(None),
        Err(PatternRefusal::Memory) => Err(PatternRefusal::Memory),
        Err(_) => Ok(None),
    }
}

/// The single character that stands at a place, if one does.
#[tactic(auto, unfolding(syntax_defs::specs::Classes::range_char_at))]
fn range_char_at(
    alloc: Global,
    text: &[char],
    at: usize,
) -> Result<Option<(char, usize)>, PatternRefusal>
    requires there { at ≤ length text.now }
    requires short { length text.now ≤ most_pattern_chars }
    ensures value { IfOk result (λ single. IsSingle text.now single (range_char_at at (drop at text.now))) }
    ensures place { IfOk result (λ single. IfSome single (λ found. (at < found.1) × (found.1 ≤ length text.now))) }
    ensures memory { IfErr result (λ e. e ≡ PatternRefusal.Memory) }
{
    match &text[at..] {
        ['\\', ..] => escaped_char(alloc, text, at),
        [] | ['[' | ']', ..] => Ok(None),
        ['&', rest @ ..] if begins_with(rest, '&') => Ok(None),
        [c, ..] => Ok(Some((*c, at + 1))),
    }
}

/// Whether a text begins with a character.
pub(crate) fn begins_with(rest: &[char], c: char) -> bool
    ensures { result ≡ begins_with c rest.now }
{
    match rest {
        [] => false,
        [d, ..] => *d == c,
    }
}

/// The last character of a range, behind its first: a `-`, and a single character.
#[tactic(auto, unfolding(syntax_defs::specs::Classes::range_end))]
fn range_end(
    alloc: Global,
    text: &[char],
    at: usize,
) -> Result<Option<(char, usize)>, PatternRefusal>
    requires there { at ≤ length text.now }
    requires short { length text.now ≤ most_pattern_chars }
    ensures value { IfOk result (λ single. IsSingle text.now single (range_end at (drop at text.now))) }
    ensures place { IfOk result (λ single. IfSome single (λ found. (at < found.1) × (found.1 ≤ length text.now))) }
    ensures memory { IfErr result (λ e. e ≡ PatternRefusal.Memory) }
{
    match &text[at..] {
        ['-', ..] => range_char_at(alloc, text, at + 1),
        _ => Ok(None),
    }
}

/// A set and the place behind it, unless memory ran out.
pub(crate) fn placed(
    set: Result<CharSet, AllocError>,
    next: usize,
) -> Result<(CharSet, usize), PatternRefusal>
    ensures found { IfOk result (λ found. (found.1 ≡ next) × (set ≡ Ok found.0)) }
    ensures memory { IfErr result (λ e. e ≡ PatternRefusal.Memory) }
{
    match set {
        Ok(set) => Ok((set, next)),
        Err(_) => Err(PatternRefusal::Memory),
    }
}

/// The member that begins at `at` with the character `first`, up to `next`: a range, or that character.
fn range_or_one(
    alloc: Global,
    text: &[char],
    at: usize,
    fold: bool,
    first: char,
    next: usize,
) -> Result<(CharSet, usize), PatternRefusal>
    requires before { at < next }
    requires there { next ≤ length text.now }
    requires short { length text.now ≤ most_pattern_chars }
    ensures value { Gives IsSetOf text.now result
        (range_or_one fold at first next (drop next text.now) (range_end next (drop next text.now))) }
    ensures place { IfOk result (λ found. (at < found.1) × (found.1 ≤ length text.now)) }
{
    match range_end(alloc, text, next)? {
        None => placed(one_char(alloc, first, fold), next),
        Some((last, _)) if last < first => Err(PatternRefusal::Syntax { at: at as u64 }),
        Some((last, end)) => placed(char_range(alloc, first, last, fold), end),
    }
}

/// A member of a class that is no class itself.
#[tactic(auto, unfolding(syntax_defs::specs::Classes::member_at))]
pub(crate) fn member_at(
    alloc: Global,
    sets: &mut NamedSets,
    text: &[char],
    at: usize,
    fold: bool,
) -> Result<(CharSet, usize), PatternRefusal>
    requires there { at < length text.now }
    requires short { length text.now ≤ most_pattern_chars }
    ensures value { Gives IsSetOf text.now result (member_at fold at (drop at text.now)) }
    ensures place { IfOk result (λ found. (at < found.1) × (found.1 ≤ length text.now)) }
{
    let (item, next) = item_at(alloc, text, at)?;
    match item {
        Escape::Char(first) => range_or_one(alloc, text, at, fold, first, next),
        Escape::Set(set, negated) => placed(named_set(alloc, sets, set, negated), next),
    }
}
