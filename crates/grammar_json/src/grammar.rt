//! Reads a TextMate grammar from the bytes of its file, or tells why it is none.

ghost use Rattle.std.specs.Prelude.{◌≡◌, ◌++◌, map, codes, unwrap_or, []};
ghost use Rattle.serde_json.specs.View.{view};
ghost use Rattle.grammar_defs.specs.RuleShape.{filled_at, members_of, patterns_in};
ghost use Rattle.grammar_defs.specs.RuleFaults.{patterns_faults_at};
ghost use Rattle.grammar_defs.specs.GrammarShape.{scope_faults, object_faults, grammar_faults, grammar_of, or_nothing, read_file};
ghost use Rattle.grammar_json.specs.Faults.{Tells};
ghost use Rattle.grammar_json.specs.GrammarViews.{grammar_view, GivesGrammar};

use crate::count::rule_count;
use crate::fault::{Fault, itself};
use crate::file_rules::Entries;
use crate::json::read_json;
use crate::named::{NamedRules, named_at};
use crate::rules::patterns_at;
use grammar_defs::MOST_RULES;
use serde_json::Value;
use std::alloc::Global;
use text_pos::{Bytes, Name};
use thiserror::Error;

/// A TextMate grammar, as its file has it.
#[derive(Debug, Drop)]
pub struct Grammar {
    /// `scopeName`
    pub scope: Name,
    pub patterns: Entries,
    pub repository: NamedRules,
    pub injections: NamedRules,
}

/// Why a file is no grammar. The first that fits is answered.
#[derive(Debug, Drop, Error)]
pub enum GrammarRefusal {
    /// It isn't UTF-8, or no JSON, or nests deeper than 127.
    #[error("Json")]
    Json,
    /// The JSON pointer (RFC 6901) of the first value of a wrong kind.
    #[error("Shape")]
    Shape { path: Bytes },
    /// It has so many rules, more than `MOST_RULES`.
    #[error("TooManyRules")]
    TooManyRules { count: u64 },
    #[error("Memory")]
    Memory,
}

/// Reads a TextMate grammar from the bytes of its file: JSON, perhaps with comments and trailing commas.
pub fn read_grammar(alloc: Global, bytes: &[u8]) -> Result<Grammar, GrammarRefusal>
    ensures { GivesGrammar result (read_file bytes.now) }
{
    let value = match read_json(alloc, bytes) {
        Ok(Some(value)) => value,
        Ok(None) => return Err(GrammarRefusal::Json),
        Err(_) => return Err(GrammarRefusal::Memory),
    };
    let grammar = match grammar_in(alloc, &value) {
        Ok(grammar) => grammar,
        Err(Fault::Shape { path }) => return Err(GrammarRefusal::Shape { path }),
        Err(Fault::Memory) => return Err(GrammarRefusal::Memory),
    };
    let count = rule_count(&grammar);
    if count > MOST_RULES {
        return Err(GrammarRefusal::TooManyRules { count });
    }
    Ok(grammar)
}

fn grammar_in(alloc: Global, value: &Value) -> Result<Grammar, Fault>
    ensures { Tells result (grammar_faults (view value.now)) (λ g. grammar_view g ≡ grammar_of (view value.now)) }
{
    if value.is_object() {
        read_object(alloc, value)
    } else {
        Err(itself(alloc))
    }
}

#[tactic(auto, using(crate::proofs::FaultLemmas::IsFirst_append))]
fn read_object(alloc: Global, value: &Value) -> Result<Grammar, Fault>
    ensures { Tells result (object_faults (view value.now)) (λ g. grammar_view g ≡ grammar_of (view value.now)) }
{
    let scope = scope_name(alloc, value)?;
    let patterns = top_patterns(alloc, value)?;
    let repository = named_at(alloc, value, "repository")?;
    let injections = named_at(alloc, value, "injections")?;
    Ok(Grammar {
        scope,
        patterns,
        repository,
        injections,
    })
}

/// `scopeName`, a string that isn't empty.
fn scope_name(alloc: Global, value: &Value) -> Result<Name, Fault>
    ensures { Tells result (scope_faults (filled_at (codes "scopeName") (view value.now))) (λ n. n ≡ unwrap_or (filled_at (codes "scopeName") (view value.now)) []) }
{
    match value.get("scopeName") {
        Some(Value::String(name)) if !name.is_empty() => Ok(Name::of(alloc, name.as_str())?),
        _ => Err(Fault::Shape {
            path: Bytes::of(alloc, b"/scopeName")?,
        }),
    }
}

/// `patterns`, an empty list where it is missing.
fn top_patterns(alloc: Global, value: &Value) -> Result<Entries, Fault>
    ensures { Tells result (patterns_faults_at (members_of (view value.now))) (λ p. p ≡ or_nothing (patterns_in (members_of (view value.now)))) }
{
    let found = patterns_at(alloc, value)?;
    Ok(Entries::or_new(alloc, found))
}
