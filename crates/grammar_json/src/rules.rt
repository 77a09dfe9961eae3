//! Reads a rule from JSON, with the rules and captures in it.

ghost use Rattle.std.specs.Prelude.{◌≡◌, ◌≤◌, ℕ, List, false, true};
ghost use Rattle.serde_json.specs.View.{view, items_view, members_view};
ghost use Rattle.grammar_defs.specs.FileRules.{FileList};
ghost use Rattle.grammar_defs.specs.RuleShape.{members_of, rule_in, entry_of, entries_of, list_of, patterns_in, captures_in, captures_of, captures_wide, capture_of, is_capture_key, number_after};
ghost use Rattle.grammar_defs.specs.RuleFaults.{rule_faults, entries_faults, list_faults, patterns_faults_at, captures_faults_at, captures_faults, wide_faults, capture_faults};
ghost use Rattle.grammar_json.specs.Faults.{Tells};
ghost use Rattle.grammar_json.specs.Members.{Pushes, every_capture, every_capture_fault, member_capture, member_faults, member_faults_of, capture_lists_faults, IsCaptureLists};
ghost use Rattle.grammar_json.specs.FileViews.{rule_of, entry_then, if_there, captures_then, capture_if_there};

use crate::capture_key::capture_number;
use crate::fault::{Fault, below, below_index, itself};
use crate::file_rules::{Capture, Captures, Entries, Entry, RawRule};
use crate::texts::{filled_at, finish_last, read_texts};
use serde_json::Value;
use serde_json::value::Map;
use std::alloc::Global;
use text_pos::Name;

/// A rule.
#[cycle(rules)]
#[tactic(auto, using(crate::proofs::MemberLemmas::faults_of_object, crate::proofs::MemberLemmas::faults_of_other))]
pub(crate) fn read_rule(alloc: Global, value: &Value) -> Result<RawRule, Fault>
    ensures { Tells result (rule_faults false (view value.now)) (λ r. rule_of r ≡ rule_in (view value.now)) }
{
    if value.is_object() {
        read_members(alloc, value)
    } else {
        Err(itself(alloc))
    }
}

/// The captures of a rule.
#[derive(Debug, Drop)]
pub struct CaptureLists {
    pub captures: Option<Captures>,
    pub begin_captures: Option<Captures>,
    pub end_captures: Option<Captures>,
    pub while_captures: Option<Captures>,
}

/// The rule that the members of an object are.
#[cycle(rules)]
#[tactic(auto, using(crate::proofs::FaultLemmas::IsFirst_append))]
fn read_members(alloc: Global, value: &Value) -> Result<RawRule, Fault>
    ensures { Tells result (member_faults_of (view value.now)) (λ r. rule_of r ≡ rule_in (view value.now)) }
{
    let texts = read_texts(alloc, value)?;
    let lists = capture_lists(alloc, value)?;
    let finish_last = finish_last(alloc, value)?;
    let patterns = patterns_at(alloc, value)?;
    Ok(RawRule {
        name: texts.name,
        content: texts.content,
        single: texts.single,
        begin: texts.begin,
        finish: texts.finish,
        keep: texts.keep,
        include: texts.include,
        captures: lists.captures,
        begin_captures: lists.begin_captures,
        end_captures: lists.end_captures,
        while_captures: lists.while_captures,
        finish_last,
        patterns,
    })
}

#[cycle(rules)]
#[tactic(auto, using(crate::proofs::FaultLemmas::IsFirst_append))]
fn capture_lists(alloc: Global, value: &Value) -> Result<CaptureLists, Fault>
    ensures { Tells result (capture_lists_faults (view value.now)) (λ l. IsCaptureLists l (view value.now)) }
{
    let captures = captures_at(alloc, value, "captures")?;
    let begin_captures = captures_at(alloc, value, "beginCaptures")?;
    let end_captures = captures_at(alloc, value, "endCaptures")?;
    let while_captures = captures_at(alloc, value, "whileCaptures")?;
    Ok(CaptureLists {
        captures,
        begin_captures,
        end_captures,
        while_captures,
    })
}

/// The list at `patterns`, where there is one.
#[cycle(rules)]
pub(crate) fn patterns_at(alloc: Global, value: &Value) -> Result<Option<Entries>, Fault>
    ensures { Tells result (patterns_faults_at (members_of (view value.now))) (λ p. if_there p ≡ patterns_in (members_of (view value.now))) }
{
    match value.get("patterns") {
        Some(list) => match read_list(alloc, list) {
            Ok(entries) => Ok(entries),
            Err(fault) => Err(below(alloc, "patterns", fault)),
        },
        None => Ok(None),
    }
}

#[cycle(rules)]
fn read_list(alloc: Global, value: &Value) -> Result<Option<Entries>, Fault>
    ensures { Tells result (list_faults (view value.now)) (λ p. if_there p ≡ list_of (view value.now)) }
{
    match value {
        Value::Null => Ok(None),
        Value::Array(items) => Ok(Some(read_entries(alloc, items.as_slice())?)),
        _ => Err(itself(alloc)),
    }
}

#[cycle(rules)]
fn read_entries(alloc: Global, items: &[Value]) -> Result<Entries, Fault>
    ensures { Tells result (entries_faults 0 (items_view items.now)) (λ p. p ≡ entries_of (items_view items.now)) }
{
    let mut entries = Vec::new(alloc);
    for index in 0..items.len() {
        match read_entry(alloc, &items[index]) {
            Ok(entry) => entries.push(entry)?,
            Err(fault) => return Err(below_index(alloc, index, fault)),
        }
    }
    Ok(Entries::of_items(entries))
}

/// A member of a list: a rule, or what is included by its name.
#[cycle(rules)]
fn read_entry(alloc: Global, value: &Value) -> Result<Entry, Fault>
    ensures { Tells result (rule_faults true (view value.now)) (λ e. (others : FileList) → entry_then e others ≡ entry_of (view value.now) others) }
{
    match value.get("include") {
        Some(Value::String(name)) => Ok(Entry::Include(Name::of(alloc, name.as_str())?)),
        _ => Ok(Entry::Rule(read_rule(alloc, value)?)),
    }
}

/// The captures at a key, where there are some.
#[cycle(rules)]
fn captures_at(alloc: Global, value: &Value, key: &str) -> Result<Option<Captures>, Fault>
    ensures { Tells result (captures_faults_at key.now (members_of (view value.now))) (λ c. if_there c ≡ captures_in key.now (members_of (view value.now))) }
{
    match value.get(key) {
        Some(captures) => match read_captures(alloc, captures) {
            Ok(captures) => Ok(captures),
            Err(fault) => Err(below(alloc, key, fault)),
        },
        None => Ok(None),
    }
}

#[cycle(rules)]
#[tactic(auto, using(crate::proofs::FaultLemmas::IsFirst_append))]
fn read_captures(alloc: Global, value: &Value) -> Result<Option<Captures>, Fault>
    ensures { Tells result (captures_faults (view value.now)) (λ c. if_there c ≡ captures_of (view value.now)) }
{
    match value {
        Value::Null => Ok(None),
        Value::Object(members) => Ok(Some(read_all_captures(alloc, members)?)),
        _ => Err(itself(alloc)),
    }
}

/// The captures of an object, by their numbers: those of fewer digits come first.
#[cycle(rules)]
#[tactic(auto, using(crate::proofs::FaultLemmas::IsFirst_append))]
fn read_all_captures(alloc: Global, members: &Map<String, Value>) -> Result<Captures, Fault>
    ensures { Tells result (every_capture_fault (members_view members.now.entries)) (λ c. c ≡ every_capture (members_view members.now.entries)) }
{
    let mut captures = Vec::new(alloc);
    push_captures(alloc, &mut captures, members, 1)?;
    push_captures(alloc, &mut captures, members, 2)?;
    push_captures(alloc, &mut captures, members, 3)?;
    push_captures(alloc, &mut captures, members, 4)?;
    push_captures(alloc, &mut captures, members, 5)?;
    Ok(Captures::of_items(captures))
}

/// Adds the captures whose numbers have so many digits.
#[cycle(rules)]
fn push_captures(
    alloc: Global,
    captures: &mut Vec<Capture>,
    members: &Map<String, Value>,
    width: usize,
) -> Result<(), Fault>
    requires { width ≤ 5 }
    ensures { Tells result (wide_faults width (members_view members.now.entries))
        (λ _. (others : FileList) → captures_then captures.new.items others ≡ captures_then captures.old.items (captures_wide width (members_view members.now.entries) others)) }
{
    for (key, member) in members.iter() {
        push_member(alloc, captures, key.as_str(), member, width)?;
    }
    Ok(())
}

/// Adds the member, where its key is a number of so many digits.
#[cycle(rules)]
fn push_member(
    alloc: Global,
    captures: &mut Vec<Capture>,
    key: &str,
    member: &Value,
    width: usize,
) -> Result<(), Fault>
    requires { width ≤ 5 }
    ensures { Tells result (member_faults width key.now (view member.now))
        (λ _. (others : FileList) → captures_then captures.new.items others ≡ captures_then captures.old.items (member_capture width key.now (view member.now) others)) }
{
    let Some(number) = capture_number(key.as_bytes(), width) else {
        return Ok(());
    };
    match read_capture(alloc, number, member) {
        Ok(found) => push_if_there(captures, found),
        Err(fault) => Err(below(alloc, key, fault)),
    }
}

#[tactic(auto, using(crate::proofs::MemberLemmas::captures_then_more))]
fn push_if_there(captures: &mut Vec<Capture>, found: Option<Capture>) -> Result<(), Fault>
    ensures { Pushes result captures.old.items captures.new.items found }
{
    match found {
        Some(capture) => {
            captures.push(capture)?;
            Ok(())
        }
        None => Ok(()),
    }
}

#[cycle(rules)]
#[tactic(auto, using(crate::proofs::FaultLemmas::IsFirst_append))]
fn read_capture(alloc: Global, number: u32, value: &Value) -> Result<Option<Capture>, Fault>
    ensures { Tells result (capture_faults (view value.now))
        (λ c. (others : FileList) → (key : List ℕ) → number ≡ number_after 0 key → capture_if_there c others ≡ capture_of key (view value.now) others) }
{
    match value {
        Value::Null => Ok(None),
        Value::Object(_) => {
            let name = filled_at(alloc, value, "name")?;
            let content = filled_at(alloc, value, "contentName")?;
            let patterns = patterns_at(alloc, value)?;
            Ok(Some(Capture {
                number,
                name,
                content,
                patterns,
            }))
        }
        _ => Err(itself(alloc)),
    }
}
