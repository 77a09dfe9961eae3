//! How many rules a grammar has, with those in captures.

ghost use Rattle.std.specs.Prelude.{◌≡◌, min, map, ◌^◌, ◌-◌};
ghost use Rattle.grammar_defs.specs.GrammarShape.{rules_of_list, rules_of_rule, rules_of_named, rule_count, capture_rules, own_rule};
ghost use Rattle.grammar_json.specs.FileViews.{rule_of, entry_rules, if_there};
ghost use Rattle.grammar_json.specs.GrammarViews.{grammar_view};
ghost use Rattle.grammar_json.specs.NamedViews.{named_view};

use crate::file_rules::{Captures, Entries, Entry, RawRule};
use crate::grammar::Grammar;
use crate::named::NamedRules;

/// How many rules have numbers: the top, rules, and captures that have rules of their own. The count stops at the
/// largest number.
pub(crate) fn rule_count(grammar: &Grammar) -> u64
    ensures { result ≡ min (rule_count (grammar_view grammar.now)) (2 ^ 64 - 1) }
{
    1u64.saturating_add(entries_count(&grammar.patterns))
        .saturating_add(named_count(&grammar.repository))
        .saturating_add(named_count(&grammar.injections))
}

/// Those of a repository, or of injections.
pub fn named_count(rules: &NamedRules) -> u64
    ensures { result ≡ min (rules_of_named (map named_view rules.now)) (2 ^ 64 - 1) }
{
    let mut count = 0u64;
    for named in rules.as_slice() {
        count = count.saturating_add(count_of_rule(&named.rule));
    }
    count
}

/// How many rules a rule is, with those in it. The counts of this file stop at the largest number.
#[cycle(count)]
pub fn count_of_rule(rule: &RawRule) -> u64
    ensures { result ≡ min (rules_of_rule (rule_of rule.now)) (2 ^ 64 - 1) }
{
    1u64.saturating_add(captures_count(&rule.captures))
        .saturating_add(captures_count(&rule.begin_captures))
        .saturating_add(captures_count(&rule.end_captures))
        .saturating_add(captures_count(&rule.while_captures))
        .saturating_add(patterns_count(&rule.patterns))
}

#[cycle(count)]
fn patterns_count(patterns: &Option<Entries>) -> u64
    ensures { result ≡ min (rules_of_list (if_there patterns.now)) (2 ^ 64 - 1) }
{
    match patterns {
        Some(entries) => entries_count(entries),
        None => 0,
    }
}

/// Those of a list.
#[cycle(count)]
#[tactic(auto, using(crate::proofs::CountLemmas::own_rule_of_list))]
pub fn entries_count(entries: &Entries) -> u64
    ensures count { result ≡ min (rules_of_list entries.now) (2 ^ 64 - 1) }
    ensures there { own_rule entries.now ≡ 1 }
{
    let mut count = 0u64;
    for entry in &entries.items {
        count = count.saturating_add(entry_count(entry));
    }
    count
}

#[cycle(count)]
fn entry_count(entry: &Entry) -> u64
    ensures { result ≡ min (entry_rules entry.now) (2 ^ 64 - 1) }
{
    match entry {
        Entry::Include(_) => 0,
        Entry::Rule(rule) => count_of_rule(rule),
    }
}

/// Those in captures.
#[cycle(count)]
pub fn captures_count(captures: &Option<Captures>) -> u64
    ensures { result ≡ min (rules_of_list (if_there captures.now)) (2 ^ 64 - 1) }
{
    match captures {
        Some(captures) => all_captures_count(captures),
        None => 0,
    }
}

#[cycle(count)]
fn all_captures_count(captures: &Captures) -> u64
    ensures { result ≡ min (rules_of_list captures.now) (2 ^ 64 - 1) }
{
    let mut count = 0u64;
    for capture in &captures.items {
        count = count.saturating_add(capture_count(&capture.patterns));
    }
    count
}

/// A capture's rules, itself among them, where it has rules of its own.
#[cycle(count)]
pub fn capture_count(patterns: &Option<Entries>) -> u64
    ensures { result ≡ min (capture_rules (if_there patterns.now)) (2 ^ 64 - 1) }
{
    match patterns {
        Some(entries) => 1u64.saturating_add(entries_count(entries)),
        None => 0,
    }
}
