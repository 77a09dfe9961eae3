//! Reads the pairs of a bracket file, or tells why it is none.

ghost use Rattle.std.specs.Prelude.{◌≡◌, ◌∷◌, [], filter, not, option_map, IfOk};
ghost use Rattle.std.specs.Fmt.{decimal};
ghost use Rattle.serde_json.specs.Data.{array, string};
ghost use Rattle.serde_json.specs.View.{view, items_view};
ghost use Rattle.grammar_defs.specs.Pointers.{all_below};
ghost use Rattle.grammar_defs.specs.BracketShape.{pair_of, pairs_of, pairs_at, pairs_faults, pair_faults, string_faults, list_faults_at, is_missing, is_angle, file_pairs, file_faults, object_faults, read_bracket_file};
ghost use Rattle.grammar_json.specs.Faults.{Tells};
ghost use Rattle.grammar_json.specs.BracketViews.{GivesPairs};

use crate::fault::{Fault, below, below_index, itself};
use crate::json::read_json;
use pairing_defs::{PairText, PairTexts};
use serde_json::Value;
use std::alloc::{AllocError, Global};
use text_pos::{Bytes, Name};
use thiserror::Error;

/// Why a file is no bracket file. The first that fits is answered.
#[derive(Debug, Drop, Error)]
pub enum PairRefusal {
    /// It isn't UTF-8, or no JSON, or nests deeper than 127.
    #[error("Json")]
    Json,
    /// The JSON pointer (RFC 6901) of the first value of a wrong kind.
    #[error("Shape")]
    Shape { path: Bytes },
    #[error("Memory")]
    Memory,
}

/// Reads the pairs of a bracket file from its bytes: JSON, perhaps with comments and trailing commas, as VS Code's
/// language configurations are.
pub fn read_brackets(alloc: Global, bytes: &[u8]) -> Result<PairTexts, PairRefusal>
    ensures { GivesPairs result (read_bracket_file bytes.now) }
{
    let value = match read_json(alloc, bytes) {
        Ok(Some(value)) => value,
        Ok(None) => return Err(PairRefusal::Json),
        Err(_) => return Err(PairRefusal::Memory),
    };
    match pairs_of_file(alloc, &value) {
        Ok(pairs) => Ok(pairs),
        Err(Fault::Shape { path }) => Err(PairRefusal::Shape { path }),
        Err(Fault::Memory) => Err(PairRefusal::Memory),
    }
}

fn pairs_of_file(alloc: Global, value: &Value) -> Result<PairTexts, Fault>
    ensures { Tells result (file_faults (view value.now)) (λ ps. ps ≡ file_pairs (view value.now)) }
{
    if value.is_object() {
        pairs_of_object(alloc, value)
    } else {
        Err(itself(alloc))
    }
}

/// The pairs of `colorizedBracketPairs` where it is there, else those of `brackets` without `<` and `>`.
fn pairs_of_object(alloc: Global, value: &Value) -> Result<PairTexts, Fault>
    ensures { Tells result (object_faults (view value.now)) (λ ps. ps ≡ file_pairs (view value.now)) }
{
    if is_missing(value.get("colorizedBracketPairs")) {
        let pairs = pairs_at(alloc, value, "brackets")?;
        Ok(without_angles(alloc, &pairs)?)
    } else {
        pairs_at(alloc, value, "colorizedBracketPairs")
    }
}

fn is_missing(found: Option<&Value>) -> bool
    ensures { result ≡ is_missing (option_map (λ v. view v.now) found.entry) }
{
    matches!(found, None | Some(Value::Null))
}

/// The pairs at a key. `null` counts as missing.
fn pairs_at(alloc: Global, value: &Value, key: &str) -> Result<PairTexts, Fault>
    ensures { Tells result (list_faults_at key.now (view value.now)) (λ ps. ps ≡ pairs_at key.now (view value.now)) }
{
    match value.get(key) {
        None | Some(Value::Null) => Ok(PairTexts::new(alloc)),
        Some(Value::Array(items)) => match read_pairs(alloc, items.as_slice()) {
            Ok(pairs) => Ok(pairs),
            Err(fault) => Err(below(alloc, key, fault)),
        },
        Some(_) => Err(below(alloc, key, itself(alloc))),
    }
}

fn read_pairs(alloc: Global, items: &[Value]) -> Result<PairTexts, Fault>
    ensures { Tells result (pairs_faults 0 (items_view items.now)) (λ ps. ps ≡ pairs_of (items_view items.now)) }
{
    let mut pairs = PairTexts::new(alloc);
    for index in 0..items.len() {
        match read_pair(alloc, &items[index]) {
            Ok(pair) => pairs.push(pair)?,
            Err(fault) => return Err(below_index(alloc, index, fault)),
        }
    }
    Ok(pairs)
}

/// A list of exactly two strings. Its length is looked at before its members.
fn read_pair(alloc: Global, value: &Value) -> Result<PairText, Fault>
    ensures { Tells result (pair_faults (view value.now)) (λ p. pair_of (view value.now) ≡ p ∷ []) }
{
    match value {
        Value::Array(items) => read_texts(alloc, items.as_slice()),
        _ => Err(itself(alloc)),
    }
}

#[tactic(auto, using(crate::proofs::PairLemmas::no_short_pair, crate::proofs::PairLemmas::no_long_pair))]
fn read_texts(alloc: Global, items: &[Value]) -> Result<PairText, Fault>
    ensures { Tells result (pair_faults (array (items_view items.now))) (λ p. pair_of (array (items_view items.now)) ≡ p ∷ []) }
{
    match items {
        [opener, closer] => {
            let opener = text_in(alloc, opener, 0)?;
            let closer = text_in(alloc, closer, 1)?;
            Ok(PairText { opener, closer })
        }
        _ => Err(itself(alloc)),
    }
}

/// The string that a member of a pair is.
fn text_in(alloc: Global, value: &Value, index: usize) -> Result<Name, Fault>
    ensures { Tells result (all_below (decimal index) (string_faults (view value.now))) (λ t. view value.now ≡ string t) }
{
    match value {
        Value::String(text) => Ok(Name::of(alloc, text.as_str())?),
        _ => Err(below_index(alloc, index, itself(alloc))),
    }
}

/// The pairs but `<` and `>`.
fn without_angles(alloc: Global, pairs: &PairTexts) -> Result<PairTexts, AllocError>
    ensures { IfOk result (λ kept. kept ≡ filter (λ p. not (is_angle p)) pairs.now) }
{
    let mut kept = PairTexts::new(alloc);
    for pair in pairs.as_slice() {
        if !is_angle(pair) {
            kept.push(copy(alloc, pair)?)?;
        }
    }
    Ok(kept)
}

fn is_angle(pair: &PairText) -> bool
    ensures { result ≡ is_angle pair.now }
{
    pair.opener.text() == "<" && pair.closer.text() == ">"
}

fn copy(alloc: Global, pair: &PairText) -> Result<PairText, AllocError>
    ensures { IfOk result (λ copied. copied ≡ pair.now) }
{
    Ok(PairText {
        opener: Name::of(alloc, pair.opener.text())?,
        closer: Name::of(alloc, pair.closer.text())?,
    })
}
