//! What an end or while text stands for after a hit, with captured texts for its back references.

ghost use Rattle.std.specs.Prelude.{◌≡◌, [], ◌∷◌, ℕ, ◌+◌, ◌≤◌, ◌<◌, ◌++◌, length, drop, chars, encode_utf8_all, string_bytes, IfOk, IfSome, OnOk};
ghost use Rattle.pattern_defs.specs.Attempt.{capture_of};
ghost use Rattle.onig_match.specs.Works.{IsPart};
ghost use Rattle.scope_texts.specs.Forms.{front_digits};
ghost use Rattle.line_defs.specs.EndTexts.{needs_backslash, escaped, end_text};

use crate::captures::{behind, captured};
use crate::digits::{characters_of, digits_at, number_of};
use char_sets::NamedSet;
use onig_match::Work;
use std::alloc::{AllocError, Global};
use text_pos::Name;

/// Whether a character is white space, or means something in a pattern.
fn needs_backslash(c: char) -> bool
    ensures { result ≡ needs_backslash c }
{
    match c {
        '-'
        | '\\'
        | '{'
        | '}'
        | '*'
        | '+'
        | '?'
        | '|'
        | '^'
        | '$'
        | '.'
        | ','
        | '['
        | ']'
        | '('
        | ')'
        | '#' => true,
        _ => NamedSet::Space.has(c),
    }
}

/// Pushes a character as a pattern that matches it.
fn push_one(out: &mut String, c: char) -> Result<(), AllocError>
    ensures { OnOk result (string_bytes out.new ≡ string_bytes out.old ++ encode_utf8_all (escaped (c ∷ []))) }
{
    if needs_backslash(c) {
        out.push('\\')?;
        out.push(c)?;
        Ok(())
    } else {
        out.push(c)?;
        Ok(())
    }
}

/// Pushes a text as a pattern that matches it.
fn push_escaped(out: &mut String, text: &[char]) -> Result<(), AllocError>
    ensures { OnOk result (string_bytes out.new ≡ string_bytes out.old ++ encode_utf8_all (escaped text.now)) }
{
    for c in text {
        push_one(out, *c)?;
    }
    Ok(())
}

/// The digits of the reference at the front of a text; none where there is no reference.
fn reference_at(text: &[char]) -> &[char]
    requires { 0 < length text.now }
    ensures digits { result.now ≡ front_digits text.now }
    ensures inside { 1 + length result.now ≤ length text.now }
{
    if text[0] == '\\' {
        digits_at(behind(text, 1))
    } else {
        &[]
    }
}

/// Pushes what a text has at its front, a reference or a character, and tells how many characters that is.
fn push_front(
    out: &mut String,
    rest: &[char],
    text: &[char],
    work: &Work,
) -> Result<usize, AllocError>
    requires some { 0 < length rest.now }
    requires inside { (n : ℕ) → IfSome (capture_of work.now.hit n) (IsPart (length text.now)) }
    ensures bytes { IfOk result (λ n. string_bytes out.new ++ encode_utf8_all (end_text text.now work.now.hit (drop n rest.now))
        ≡ string_bytes out.old ++ encode_utf8_all (end_text text.now work.now.hit rest.now)) }
    ensures some { IfOk result (λ n. (0 < n) × (n ≤ length rest.now)) }
{
    let digits = reference_at(rest);
    if digits.is_empty() {
        out.push(rest[0])?;
        return Ok(1);
    }
    push_escaped(out, captured(text, work, number_of(digits)))?;
    Ok(1 + digits.len())
}

/// What an `end` or `while` text stands for after a hit: with the texts that the hit captured for its back references.
pub fn end_text(
    alloc: Global,
    pattern: &str,
    text: &[char],
    work: &Work,
) -> Result<Name, AllocError>
    requires { (n : ℕ) → IfSome (capture_of work.now.hit n) (IsPart (length text.now)) }
    ensures { IfOk result (λ r. r ≡ encode_utf8_all (end_text text.now work.now.hit (chars pattern.now))) }
{
    let characters = characters_of(alloc, pattern)?;
    let mut out = String::new(alloc);
    let mut rest = characters.as_slice();
    while !rest.is_empty() {
        let count = push_front(&mut out, rest, text, work)?;
        rest = behind(rest, count);
    }
    Name::of(alloc, out.as_str())
}
