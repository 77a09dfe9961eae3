//! Which pairs of texts are kept, their openers and closers each once, and the first text that is too long.

ghost use Rattle.std.specs.Prelude.{◌≡◌, length, IfOk};
ghost use Rattle.std.specs.Str.{chars};
ghost use Rattle.pairing_defs.specs.BracketTexts.{is_among, is_dropped, opens_one, closes_one, kept_pairs, once, kinds_of, closers_of as all_closers, longer_length, first_long};

use pairing_defs::{MOST_BRACKET_CHARS, PairText, PairTexts};
use std::alloc::{AllocError, Global};
use std::marker::Model;
use text_pos::{Items, Name};

/// Texts, each once.
pub(crate) type Texts = Items<Name>;

/// The pairs that aren't dropped.
pub(crate) fn kept_pairs(alloc: Global, pairs: &[PairText]) -> Result<PairTexts, AllocError>
    ensures { IfOk result (λ kept. kept ≡ kept_pairs pairs.now) }
{
    let mut kept = PairTexts::new(alloc);
    for pair in pairs {
        if !is_dropped(kept.as_slice(), pair) {
            kept.push(copy(alloc, pair)?)?;
        }
    }
    Ok(kept)
}

/// Whether a pair is dropped, where these are kept before it.
fn is_dropped(kept: &[PairText], pair: &PairText) -> bool
    ensures { result ≡ is_dropped kept.now pair.now }
{
    let opener = pair.opener.text();
    let closer = pair.closer.text();
    opener.is_empty()
        || closer.is_empty()
        || opener == closer
        || closes(kept, opener)
        || opens(kept, closer)
}

/// Whether a text closes one of these pairs.
fn closes(kept: &[PairText], text: &str) -> bool
    ensures { result ≡ closes_one kept.now text.now }
{
    kept.iter().any(|pair| text == pair.closer.text())
}

/// Whether a text opens one of these pairs.
fn opens(kept: &[PairText], text: &str) -> bool
    ensures { result ≡ opens_one kept.now text.now }
{
    kept.iter().any(|pair| text == pair.opener.text())
}

fn copy(alloc: Global, pair: &PairText) -> Result<PairText, AllocError>
    ensures { IfOk result (λ copied. copied ≡ pair.now) }
{
    Ok(PairText {
        opener: Name::of(alloc, pair.opener.text())?,
        closer: Name::of(alloc, pair.closer.text())?,
    })
}

/// The texts that open, by their kinds.
pub(crate) fn openers_of(alloc: Global, kept: &[PairText]) -> Result<Texts, AllocError>
    ensures { IfOk result (λ texts. texts ≡ kinds_of kept.now) }
{
    let mut texts = Texts::new(alloc);
    for pair in kept {
        let text = pair.opener.text();
        if !is_among(text, texts.as_slice()) {
            texts.push(Name::of(alloc, text)?)?;
        }
    }
    Ok(texts)
}

/// The texts that close, by where they come first.
pub(crate) fn closers_of(alloc: Global, kept: &[PairText]) -> Result<Texts, AllocError>
    ensures { IfOk result (λ texts. texts ≡ once (all_closers kept.now)) }
{
    let mut texts = Texts::new(alloc);
    for pair in kept {
        let text = pair.closer.text();
        if !is_among(text, texts.as_slice()) {
            texts.push(Name::of(alloc, text)?)?;
        }
    }
    Ok(texts)
}

fn is_among(text: &str, texts: &[Name]) -> bool
    ensures { result ≡ is_among text.now texts.now }
{
    texts.iter().any(|other| text == other.text())
}

/// A pair with a text that is too long.
#[derive(Debug, Drop)]
pub(crate) struct Long {
    /// The number of the pair, from 0.
    pub index: u64,
    /// How many characters its longer text has.
    pub count: u64,
}

impl Model for Long {
    ghost use Rattle.pairing_defs.specs.BracketTexts.{LongPair};

    ghost Value = { LongPair };

    ghost view = { λ long. record { index = long.index; count = long.count } };
}

/// The first pair with a text that is too long.
pub(crate) fn first_long(kept: &[PairText]) -> Option<Long>
    ensures { result ≡ first_long 0 kept.now }
{
    let mut index = 0u64;
    for pair in kept {
        let count = longer_length(pair);
        if count > MOST_BRACKET_CHARS {
            return Some(Long { index, count });
        }
        index += 1;
    }
    None
}

/// How many characters the longer text of a pair has.
fn longer_length(pair: &PairText) -> u64
    ensures { result ≡ longer_length pair.now }
{
    let opener = char_count(pair.opener.text());
    let closer = char_count(pair.closer.text());
    opener.max(closer)
}

fn char_count(text: &str) -> u64
    ensures { result ≡ length (chars text.now) }
{
    text.chars().count() as u64
}
