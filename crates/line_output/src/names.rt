//! The names that a scope text stands for after a hit.

ghost use Rattle.std.specs.Prelude.{◌≡◌, ℕ, length, IfOk, IfSome};
ghost use Rattle.std.specs.Option.{option_copied};
ghost use Rattle.pattern_defs.specs.Attempt.{capture_of};
ghost use Rattle.onig_match.specs.Works.{IsPart};
ghost use Rattle.line_defs.specs.ScopeTexts.{pushed};
ghost use Rattle.line_output.specs.Names.{names_of, names_in, with_pieces};

use onig_match::Work;
use rule_table::ScopeText;
use scope_names::{Scopes, SharedName};
use scope_texts::scope_text;
use std::alloc::{AllocError, Global};

/// The names that a scope text stands for after a hit. Those of a text without `$` are shared.
pub fn names_of(
    alloc: Global,
    name: &ScopeText,
    text: &[char],
    work: &Work,
) -> Result<SharedName, AllocError>
    requires { (n : ℕ) → IfSome (capture_of work.now.hit n) (IsPart (length text.now)) }
    ensures { IfOk result (λ names. names ≡ names_of text.now work.now.hit name.now) }
{
    let given = name.text();
    match name.fixed() {
        Some(names) => names.copy(),
        None => {
            let filled = scope_text(alloc, given, text, work)?;
            SharedName::of(alloc, filled.text())
        }
    }
}

/// The same of a scope text that may be missing.
pub fn names_in(
    alloc: Global,
    name: &Option<ScopeText>,
    text: &[char],
    work: &Work,
) -> Result<Option<SharedName>, AllocError>
    requires { (n : ℕ) → IfSome (capture_of work.now.hit n) (IsPart (length text.now)) }
    ensures { IfOk result (λ names. names ≡ names_in text.now work.now.hit name.now) }
{
    match name {
        None => Ok(None),
        Some(name) => Ok(Some(names_of(alloc, name, text, work)?)),
    }
}

/// Scopes with names pushed, which may be missing.
pub fn with_pieces(
    alloc: Global,
    scopes: &Scopes,
    names: &Option<SharedName>,
) -> Result<Scopes, AllocError>
    ensures { IfOk result (λ r. r ≡ with_pieces scopes.now names.now) }
{
    match names {
        None => scopes.copy(),
        Some(names) => scopes.push_shared(alloc, names),
    }
}

/// Scopes with the names that a scope text stands for after a hit, which may be missing.
pub fn pushed(
    alloc: Global,
    scopes: &Scopes,
    name: &Option<ScopeText>,
    text: &[char],
    work: &Work,
) -> Result<Scopes, AllocError>
    requires { (n : ℕ) → IfSome (capture_of work.now.hit n) (IsPart (length text.now)) }
    ensures { IfOk result (λ r. r ≡ pushed text.now work.now.hit scopes.now name.now) }
{
    with_pieces(alloc, scopes, &names_in(alloc, name, text, work)?)
}
