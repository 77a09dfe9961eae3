//! What the members of a rule's list and its captures stand for, by numbers of rules.

ghost use Rattle.std.specs.Prelude.{◌≡◌, ◌+◌, ◌<◌, ◌^◌, ◌++◌, ◌∷◌, [], ℕ, map, IfOk, OnOk, option_to_list, option_and_then, option_map, true};
ghost use Rattle.graph_defs.specs.Includes.{target};
ghost use Rattle.grammar_defs.specs.FileRules.{FileList};
ghost use Rattle.grammar_defs.specs.GrammarShape.{rules_of_list, rules_of_rule, capture_rules};
ghost use Rattle.grammar_json.specs.FileViews.{rule_of as file_rule, texts_of, entry_list, entry_rules, capture_list, if_there, entry_then, capture_then};
ghost use Rattle.rule_table.specs.Views.{kind_of, entry_of, rule_of};
ghost use Rattle.std.specs.List.{count_by};
ghost use Rattle.graph_defs.specs.GraphMeaning.{is_unread, pattern_texts};
ghost use Rattle.graph_defs.specs.ListedRules.{is_there, members, members_of, entries, entries_or, inner_of, captures_from, patterns_from, start_entries, finish_entries, begin_from, end_from, while_from, listed_rule, group_of};
ghost use Rattle.rule_graph.specs.Listing.{numbers, AreFirsts};

use crate::includes::Targets;
use crate::slots::{Patterns, kind_of};
use grammar_json::count::{captures_count, count_of_rule, entries_count};
use grammar_json::{Capture, Captures, Entries, Entry, RawRule};
use rule_table::{Rule, RuleCapture, RuleCaptures, RuleIds, RuleKind, ScopeText, Slot};
use scope_defs::RuleId;
use std::alloc::{AllocError, Global};
use text_pos::Name;

/// A scope text, where there is one.
pub(crate) fn scope_text(
    alloc: Global,
    text: &Option<Name>,
) -> Result<Option<ScopeText>, AllocError>
    ensures { IfOk result (λ t. t ≡ text.now) }
{
    match text {
        Some(text) => Ok(Some(ScopeText::of(alloc, text.text())?)),
        None => Ok(None),
    }
}

/// Adds what an include stands for, where it stands for a rule.
fn push_target(ids: &mut RuleIds, targets: &Targets, name: &str) -> Result<(), AllocError>
    ensures { OnOk result (numbers ids.new ≡ numbers ids.old ++ option_to_list (target targets.now name.now)) }
{
    match targets.target(name) {
        Some(id) => ids.push(id),
        None => Ok(()),
    }
}

/// Adds what a member of a list stands for, and answers the number of the next rule.
fn push_member(
    ids: &mut RuleIds,
    targets: &Targets,
    next: u32,
    entry: &Entry,
) -> Result<u32, AllocError>
    requires { next + entry_rules entry.now < 2 ^ 32 }
    ensures next { IfOk result (λ n. n ≡ next + entry_rules entry.now) }
    ensures ids { IfOk result (λ n. (others : FileList) → numbers ids.old ++ members targets.now next (entry_then entry.now others) ≡ numbers ids.new ++ members targets.now n others) }
{
    match entry {
        Entry::Include(name) => {
            push_target(ids, targets, name.text())?;
            Ok(next)
        }
        Entry::Rule(rule) => {
            ids.push(RuleId(next))?;
            Ok(next + count_of_rule(rule) as u32)
        }
    }
}

/// The rules that the members of a list stand for, where the first rule has the number `first`.
#[tactic(auto, using(crate::proofs::ListLemmas::entries_are_there))]
pub(crate) fn members(
    alloc: Global,
    targets: &Targets,
    first: u32,
    entries: &Entries,
) -> Result<RuleIds, AllocError>
    requires { first + rules_of_list entries.now < 2 ^ 32 }
    ensures members { IfOk result (λ ids. numbers ids ≡ members targets.now first entries.now) }
    ensures there { is_there entries.now ≡ true }
{
    let mut ids = RuleIds::new(alloc);
    let mut next = first;
    for entry in entries.as_slice() {
        next = push_member(&mut ids, targets, next, entry)?;
    }
    Ok(ids)
}

/// The group of a capture's rules, where it has some and the group has the number `next`; and the number of the rule
/// behind these.
#[tactic(auto, using(crate::proofs::ListLemmas::inner_of_own))]
fn inner_of(next: u32, patterns: &Option<Entries>) -> (Option<RuleId>, u32)
    requires { next + capture_rules (if_there patterns.now) < 2 ^ 32 }
    ensures inner { option_map (λ id. id.0) result.0 ≡ inner_of next (if_there patterns.now) }
    ensures next { result.1 ≡ next + capture_rules (if_there patterns.now) }
{
    match patterns {
        Some(entries) => {
            let count = entries_count(entries) as u32;
            (Some(RuleId(next)), next + 1 + count)
        }
        None => (None, next),
    }
}

/// Adds what is done with a capture, and answers the number of the next rule.
fn push_capture(
    alloc: Global,
    list: &mut RuleCaptures,
    next: u32,
    capture: &Capture,
) -> Result<u32, AllocError>
    requires { next + capture_rules (if_there capture.now.patterns) < 2 ^ 32 }
    ensures next { IfOk result (λ n. n ≡ next + capture_rules (if_there capture.now.patterns)) }
    ensures list { IfOk result (λ n. (others : FileList) → map entry_of list.old ++ entries next (capture_then capture.now others) ≡ map entry_of list.new ++ entries n others) }
{
    let (inner, behind) = inner_of(next, &capture.patterns);
    list.push(RuleCapture {
        number: capture.number,
        name: scope_text(alloc, &capture.name)?,
        content: scope_text(alloc, &capture.content)?,
        inner,
    })?;
    Ok(behind)
}

/// What is done with captures, where their first rule has the number `first`.
#[tactic(auto, using(crate::proofs::ListLemmas::captures_are_there))]
fn all_entries(alloc: Global, first: u32, captures: &Captures) -> Result<RuleCaptures, AllocError>
    requires { first + rules_of_list captures.now < 2 ^ 32 }
    ensures list { IfOk result (λ list. map entry_of list ≡ entries first captures.now) }
    ensures there { is_there captures.now ≡ true }
{
    let mut list = RuleCaptures::new(alloc);
    let mut next = first;
    for capture in captures.as_slice() {
        next = push_capture(alloc, &mut list, next, capture)?;
    }
    Ok(list)
}

fn entries(
    alloc: Global,
    first: u32,
    captures: &Option<Captures>,
) -> Result<RuleCaptures, AllocError>
    requires { first + rules_of_list (if_there captures.now) < 2 ^ 32 }
    ensures { IfOk result (λ list. map entry_of list ≡ entries first (if_there captures.now)) }
{
    match captures {
        Some(captures) => all_entries(alloc, first, captures),
        None => Ok(RuleCaptures::new(alloc)),
    }
}

/// The numbers of the first rules in the parts of a rule.
#[derive(Clone, Copy)]
pub(crate) struct Firsts {
    pub captures: u32,
    pub begin: u32,
    pub end: u32,
    pub keep: u32,
    pub patterns: u32,
}

fn firsts_of(id: u32, rule: &RawRule) -> Firsts
    requires { id + rules_of_rule (file_rule rule.now) < 2 ^ 32 }
    ensures { AreFirsts id (file_rule rule.now) result }
{
    let captures = id + 1;
    let begin = captures + captures_count(&rule.captures) as u32;
    let end = begin + captures_count(&rule.begin_captures) as u32;
    let keep = end + captures_count(&rule.end_captures) as u32;
    let patterns = keep + captures_count(&rule.while_captures) as u32;
    Firsts {
        captures,
        begin,
        end,
        keep,
        patterns,
    }
}

/// The captures at a key, or those of `captures` where it is missing.
fn entries_or(
    alloc: Global,
    rule: &RawRule,
    firsts: Firsts,
    first: u32,
    captures: &Option<Captures>,
) -> Result<RuleCaptures, AllocError>
    requires own { firsts.captures + rules_of_list (if_there rule.now.captures) < 2 ^ 32 }
    requires other { first + rules_of_list (if_there captures.now) < 2 ^ 32 }
    ensures { IfOk result (λ list. (n : ℕ) → firsts.captures ≡ n + 1 → map entry_of list ≡ entries_or n (file_rule rule.now) first (if_there captures.now)) }
{
    match captures {
        Some(captures) => all_entries(alloc, first, captures),
        None => entries(alloc, firsts.captures, &rule.captures),
    }
}

/// The captures of a rule's `match` or `begin`.
fn start_entries(
    alloc: Global,
    id: u32,
    rule: &RawRule,
    kind: RuleKind,
) -> Result<RuleCaptures, AllocError>
    requires { id + rules_of_rule (file_rule rule.now) < 2 ^ 32 }
    ensures { IfOk result (λ list. map entry_of list ≡ start_entries id (file_rule rule.now) (kind_of kind)) }
{
    let firsts = firsts_of(id, rule);
    match kind {
        RuleKind::Match => entries(alloc, firsts.captures, &rule.captures),
        RuleKind::BeginEnd | RuleKind::BeginWhile => {
            entries_or(alloc, rule, firsts, firsts.begin, &rule.begin_captures)
        }
        RuleKind::Group => Ok(RuleCaptures::new(alloc)),
    }
}

/// The captures of a rule's `end` or `while`.
fn finish_entries(
    alloc: Global,
    id: u32,
    rule: &RawRule,
    kind: RuleKind,
) -> Result<RuleCaptures, AllocError>
    requires { id + rules_of_rule (file_rule rule.now) < 2 ^ 32 }
    ensures { IfOk result (λ list. map entry_of list ≡ finish_entries id (file_rule rule.now) (kind_of kind)) }
{
    let firsts = firsts_of(id, rule);
    match kind {
        RuleKind::BeginEnd => entries_or(alloc, rule, firsts, firsts.end, &rule.end_captures),
        RuleKind::BeginWhile => entries_or(alloc, rule, firsts, firsts.keep, &rule.while_captures),
        RuleKind::Match | RuleKind::Group => Ok(RuleCaptures::new(alloc)),
    }
}

/// What an include stands for, where there is one.
fn included(alloc: Global, targets: &Targets, include: &Option<Name>) -> Result<RuleIds, AllocError>
    ensures { IfOk result (λ ids. numbers ids ≡ option_to_list (option_and_then (target targets.now) include.now)) }
{
    let mut ids = RuleIds::new(alloc);
    if let Some(name) = include {
        push_target(&mut ids, targets, name.text())?;
    }
    Ok(ids)
}

/// The rules that a rule's own list stands for.
fn members_of(
    alloc: Global,
    targets: &Targets,
    id: u32,
    rule: &RawRule,
    kind: RuleKind,
) -> Result<RuleIds, AllocError>
    requires { id + rules_of_rule (file_rule rule.now) < 2 ^ 32 }
    ensures { IfOk result (λ ids. numbers ids ≡ members_of targets.now id (file_rule rule.now) (kind_of kind)) }
{
    let firsts = firsts_of(id, rule);
    match &rule.patterns {
        Some(entries) => members(alloc, targets, firsts.patterns, entries),
        None if kind == RuleKind::Group => included(alloc, targets, &rule.include),
        None => Ok(RuleIds::new(alloc)),
    }
}

/// A rule as its file lists it: its `active` are the rules that its own list stands for.
pub(crate) fn listed_rule(
    alloc: Global,
    targets: &Targets,
    patterns: &mut Patterns,
    id: u32,
    rule: &RawRule,
) -> Result<Rule, AllocError>
    requires numbers { id + rules_of_rule (file_rule rule.now) < 2 ^ 32 }
    requires unread { patterns.old.unread + 4 < 2 ^ 32 }
    ensures rule { IfOk result (λ r. rule_of r ≡ listed_rule targets.now id (file_rule rule.now)) }
    ensures unread { OnOk result (patterns.new.unread ≡ patterns.old.unread + count_by is_unread (pattern_texts (texts_of rule.now))) }
{
    let kind = kind_of(rule);
    let slots = patterns.slots(rule, kind)?;
    Ok(Rule {
        kind,
        name: scope_text(alloc, &rule.name)?,
        content: scope_text(alloc, &rule.content)?,
        start: slots.start,
        finish: slots.finish,
        finish_last: rule.finish_last,
        start_captures: start_entries(alloc, id, rule, kind)?,
        finish_captures: finish_entries(alloc, id, rule, kind)?,
        active: members_of(alloc, targets, id, rule, kind)?,
    })
}

/// A group of rules.
pub(crate) fn group_of(alloc: Global, name: Option<ScopeText>, members: RuleIds) -> Rule
    ensures { rule_of result ≡ group_of name (numbers members) }
{
    Rule {
        kind: RuleKind::Group,
        name,
        content: None,
        start: Slot::Never,
        finish: Slot::Never,
        finish_last: false,
        start_captures: RuleCaptures::new(alloc),
        finish_captures: RuleCaptures::new(alloc),
        active: members,
    }
}
