//! Reads rules with names, as a repository or injections have them.

ghost use Rattle.std.specs.Prelude.{◌≡◌, ◌++◌, map, codes};
ghost use Rattle.serde_json.specs.Find.{get};
ghost use Rattle.serde_json.specs.View.{view, members_view};
ghost use Rattle.grammar_defs.specs.GrammarShape.{named_in, named_of, named_member, named_member_faults, nameds_faults, named_faults_at};
ghost use Rattle.grammar_json.specs.Faults.{Tells};
ghost use Rattle.grammar_json.specs.NamedViews.{named_view};

use crate::fault::{Fault, below, itself};
use crate::file_rules::RawRule;
use crate::rules::read_rule;
use serde_json::Value;
use serde_json::value::Map;
use std::alloc::Global;
use text_pos::{Items, Name};

/// A rule with its name in `repository` or `injections`.
#[derive(Debug, Drop)]
pub struct NamedRule {
    pub key: Name,
    pub rule: RawRule,
}

/// Rules by the byte order of their names.
pub type NamedRules = Items<NamedRule>;

/// The rules of the object at a key.
pub(crate) fn named_at(alloc: Global, value: &Value, key: &str) -> Result<NamedRules, Fault>
    ensures { Tells result (named_faults_at key.now (view value.now)) (λ r. map named_view r ≡ named_in (get key.now (view value.now))) }
{
    match value.get(key) {
        None | Some(Value::Null) => Ok(NamedRules::new(alloc)),
        Some(Value::Object(members)) => match read_named(alloc, members) {
            Ok(named) => Ok(named),
            Err(fault) => Err(below(alloc, key, fault)),
        },
        Some(_) => Err(below(alloc, key, itself(alloc))),
    }
}

fn read_named(alloc: Global, members: &Map<String, Value>) -> Result<NamedRules, Fault>
    ensures { Tells result (nameds_faults (members_view members.now.entries)) (λ r. map named_view r ≡ named_of (members_view members.now.entries)) }
{
    let mut named = NamedRules::new(alloc);
    for (key, member) in members.iter() {
        push_named(alloc, &mut named, key.as_str(), member)?;
    }
    Ok(named)
}

fn push_named(alloc: Global, named: &mut NamedRules, key: &str, member: &Value) -> Result<(), Fault>
    ensures { Tells result (named_member_faults key.now (view member.now))
        (λ _. map named_view named.new ≡ map named_view named.old ++ named_member key.now (view member.now)) }
{
    if member.is_null() {
        return Ok(());
    }
    match read_rule(alloc, member) {
        Ok(rule) => {
            let key = Name::of(alloc, key)?;
            named.push(NamedRule { key, rule })?;
            Ok(())
        }
        Err(fault) => Err(below(alloc, key, fault)),
    }
}
