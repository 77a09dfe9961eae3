//! Reads the strings and the flag of a rule.

ghost use Rattle.std.specs.Prelude.{◌≡◌, ◌++◌, codes, option_and_then};
ghost use Rattle.serde_json.specs.View.{view};
ghost use Rattle.serde_json.specs.Find.{get, as_str};
ghost use Rattle.grammar_defs.specs.RuleShape.{text_at, filled_at, unless_empty, texts_in, finish_last_in};
ghost use Rattle.grammar_defs.specs.RuleFaults.{text_faults_at, texts_faults, finish_last_faults};
ghost use Rattle.grammar_json.specs.Faults.{Tells};
ghost use Rattle.grammar_json.specs.FileViews.{texts_read};

use crate::fault::{Fault, below, itself};
use serde_json::Value;
use std::alloc::Global;
use text_pos::Name;

/// What a rule says in texts.
#[derive(Debug, Drop)]
pub struct RuleTexts {
    pub name: Option<Name>,
    pub content: Option<Name>,
    pub single: Option<Name>,
    pub begin: Option<Name>,
    pub finish: Option<Name>,
    pub keep: Option<Name>,
    pub include: Option<Name>,
}

/// The string at a key, where there is one. `null` counts as missing.
pub(crate) fn text_at(alloc: Global, value: &Value, key: &str) -> Result<Option<Name>, Fault>
    ensures { Tells result (text_faults_at key.now (view value.now)) (λ t. t ≡ text_at key.now (view value.now)) }
{
    match value.get(key) {
        None | Some(Value::Null) => Ok(None),
        Some(Value::String(text)) => Ok(Some(Name::of(alloc, text.as_str())?)),
        Some(_) => Err(below(alloc, key, itself(alloc))),
    }
}

/// The same of a string that isn't empty.
pub(crate) fn filled_at(alloc: Global, value: &Value, key: &str) -> Result<Option<Name>, Fault>
    ensures { Tells result (text_faults_at key.now (view value.now)) (λ t. t ≡ filled_at key.now (view value.now)) }
{
    match text_at(alloc, value, key)? {
        Some(text) => Ok(unless_empty(text)),
        None => Ok(None),
    }
}

fn unless_empty(text: Name) -> Option<Name>
    ensures { result ≡ unless_empty text }
{
    if text.text().is_empty() {
        None
    } else {
        Some(text)
    }
}

#[tactic(auto, using(crate::proofs::FaultLemmas::IsFirst_append))]
pub(crate) fn read_texts(alloc: Global, value: &Value) -> Result<RuleTexts, Fault>
    ensures { Tells result (texts_faults (view value.now)) (λ t. texts_read t ≡ texts_in (view value.now)) }
{
    let name = filled_at(alloc, value, "name")?;
    let content = filled_at(alloc, value, "contentName")?;
    let single = filled_at(alloc, value, "match")?;
    let begin = text_at(alloc, value, "begin")?;
    let finish = filled_at(alloc, value, "end")?;
    let keep = filled_at(alloc, value, "while")?;
    let include = text_at(alloc, value, "include")?;
    Ok(RuleTexts {
        name,
        content,
        single,
        begin,
        finish,
        keep,
        include,
    })
}

/// `applyEndPatternLast`: a boolean, or a number that counts as `true` where it isn't the unsigned 0.
pub(crate) fn finish_last(alloc: Global, value: &Value) -> Result<bool, Fault>
    ensures { Tells result (finish_last_faults (view value.now)) (λ b. b ≡ finish_last_in (view value.now)) }
{
    match value.get("applyEndPatternLast") {
        None | Some(Value::Null) => Ok(false),
        Some(Value::Bool(flag)) => Ok(*flag),
        Some(Value::Number(number)) => Ok(number.as_u64() != Some(0)),
        Some(_) => Err(below(alloc, "applyEndPatternLast", itself(alloc))),
    }
}
