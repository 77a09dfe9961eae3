//! The bracket texts of the kept pairs: their characters, and what they open or close.

ghost use Rattle.std.specs.Prelude.{◌≡◌, ◌≤◌, ◌++◌, length, map, IfOk, OnOk};
ghost use Rattle.std.specs.Str.{chars};
ghost use Rattle.pairing_defs.specs.BracketTexts.{closers_of, closer_text, kinds_of, once, openers_from, texts_of};

use crate::closed_kinds::closed_by;
use pairing_defs::{BracketText, MOST_KINDS, PairText, Role};
use std::alloc::{AllocError, Global};
use text_pos::{Chars, Name};

/// The brackets of the pairs that are kept, given their texts.
pub(crate) fn bracket_texts(
    alloc: Global,
    kept: &[PairText],
    openers: &[Name],
    closers: &[Name],
) -> Result<Vec<BracketText>, AllocError>
    requires few { length openers.now ≤ MOST_KINDS }
    requires opening { openers.now ≡ kinds_of kept.now }
    requires closing { closers.now ≡ once (closers_of kept.now) }
    ensures { IfOk result (λ texts. texts.items ≡ texts_of kept.now) }
{
    let mut texts = Vec::new(alloc);
    add_openers(alloc, &mut texts, openers)?;
    add_closers(alloc, &mut texts, kept, openers, closers)?;
    Ok(texts)
}

fn add_openers(
    alloc: Global,
    texts: &mut Vec<BracketText>,
    openers: &[Name],
) -> Result<(), AllocError>
    requires { length openers.now ≤ MOST_KINDS }
    ensures { OnOk result (texts.new.items ≡ texts.old.items ++ openers_from 0 openers.now) }
{
    for n in 0..openers.len() {
        texts.push(BracketText {
            text: chars_of(alloc, openers[n].text())?,
            role: Role::Opener(n as u32),
        })?;
    }
    Ok(())
}

fn add_closers(
    alloc: Global,
    texts: &mut Vec<BracketText>,
    kept: &[PairText],
    openers: &[Name],
    closers: &[Name],
) -> Result<(), AllocError>
    requires few { length openers.now ≤ MOST_KINDS }
    requires opening { openers.now ≡ kinds_of kept.now }
    ensures { OnOk result (texts.new.items ≡ texts.old.items ++ map (closer_text kept.now) closers.now) }
{
    for closer in closers {
        texts.push(BracketText {
            text: chars_of(alloc, closer.text())?,
            role: Role::Closer(closed_by(kept, openers, closer.text())),
        })?;
    }
    Ok(())
}

/// The characters of a text.
fn chars_of(alloc: Global, text: &str) -> Result<Chars, AllocError>
    ensures { IfOk result (λ cs. cs ≡ chars text.now) }
{
    let found = collected(alloc, text)?;
    Chars::of(alloc, &found)
}

fn collected(alloc: Global, text: &str) -> Result<Vec<char>, AllocError>
    ensures { IfOk result (λ cs. cs.items ≡ chars text.now) }
{
    text.chars().collect(alloc)
}
