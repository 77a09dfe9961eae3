//! What a scope text stands for after a hit, with captured texts for its forms.

ghost use Rattle.std.specs.Prelude.{◌≡◌, [], ◌∷◌, ℕ, ◌+◌, ◌≤◌, ◌<◌, ◌++◌, length, drop, chars, encode_utf8_all, string_bytes, IfOk, IfSome, OnOk, nat_le, if◌then◌else◌};
ghost use Rattle.pattern_defs.specs.Attempt.{capture_of};
ghost use Rattle.onig_match.specs.Works.{IsPart};
ghost use Rattle.scope_texts.specs.Forms.{front_form};
ghost use Rattle.line_defs.specs.ScopeTexts.{captured, without_dots, in_case, filled};

use crate::captures::{behind, captured, without_dots};
use crate::digits::characters_of;
use crate::form::{Form, form_behind};
use line_defs::Case;
use onig_match::Work;
use std::alloc::{AllocError, Global};
use text_pos::Name;

/// A character in a case.
fn in_case(case: Case, c: char) -> char
    ensures { result ∷ [] ≡ in_case case (c ∷ []) }
{
    match case {
        Case::AsIs => c,
        Case::Lower => c.to_ascii_lowercase(),
        Case::Upper => c.to_ascii_uppercase(),
    }
}

/// Pushes what a form stands for.
fn push_captured(out: &mut String, case: Case, taken: &[char]) -> Result<(), AllocError>
    ensures { OnOk result (string_bytes out.new ≡
        string_bytes out.old ++ encode_utf8_all (in_case case (without_dots taken.now))) }
{
    for c in without_dots(taken) {
        out.push(in_case(case, *c))?;
    }
    Ok(())
}

/// A form, where its number isn't above the groups.
fn named(form: Form, groups: u32) -> Option<Form>
    ensures { result ≡ (if nat_le form.number groups then Some form else None) }
{
    if form.number <= u64::from(groups) {
        Some(form)
    } else {
        None
    }
}

/// The form at the front of a text, where its number isn't above the groups.
fn form_at(text: &[char], groups: u32) -> Option<Form>
    requires { 0 < length text.now }
    ensures form { result ≡ front_form groups text.now }
    ensures inside { IfSome result (λ form. 1 + form.more ≤ length text.now) }
{
    if text[0] != '$' {
        return None;
    }
    match form_behind(behind(text, 1)) {
        Some(form) => named(form, groups),
        None => None,
    }
}

/// Pushes what a text has at its front, a form or a character, and tells how many characters that is.
fn push_front(
    out: &mut String,
    rest: &[char],
    text: &[char],
    work: &Work,
) -> Result<usize, AllocError>
    requires some { 0 < length rest.now }
    requires inside { (n : ℕ) → IfSome (capture_of work.now.hit n) (IsPart (length text.now)) }
    ensures bytes { IfOk result (λ n. string_bytes out.new ++ encode_utf8_all (filled text.now work.now.hit (drop n rest.now))
        ≡ string_bytes out.old ++ encode_utf8_all (filled text.now work.now.hit rest.now)) }
    ensures some { IfOk result (λ n. (0 < n) × (n ≤ length rest.now)) }
{
    match form_at(rest, work.groups()) {
        Some(form) => {
            push_captured(out, form.case, captured(text, work, form.number))?;
            Ok(1 + form.more)
        }
        None => {
            out.push(rest[0])?;
            Ok(1)
        }
    }
}

/// What a scope text stands for after a hit: with the texts that the hit captured for `$n`, `${n:/downcase}` and
/// `${n:/upcase}`.
pub fn scope_text(alloc: Global, name: &str, text: &[char], work: &Work) -> Result<Name, AllocError>
    requires { (n : ℕ) → IfSome (capture_of work.now.hit n) (IsPart (length text.now)) }
    ensures { IfOk result (λ r. r ≡ encode_utf8_all (filled text.now work.now.hit (chars name.now))) }
{
    let characters = characters_of(alloc, name)?;
    let mut out = String::new(alloc);
    let mut rest = characters.as_slice();
    while !rest.is_empty() {
        let count = push_front(&mut out, rest, text, work)?;
        rest = behind(rest, count);
    }
    Name::of(alloc, out.as_str())
}
