//! Walks over a grammar and numbers its rules, as they are met.

ghost use Rattle.std.specs.Prelude.{◌≡◌, ◌≤◌, ◌+◌, [], ◌∷◌, map, length, IfOk, OnOk, Some, true};
ghost use Rattle.grammar_defs.specs.FileRules.{placed, nothing};
ghost use Rattle.grammar_defs.specs.GrammarShape.{rules_of_list, rule_count};
ghost use Rattle.grammar_json.specs.FileViews.{rule_of as file_rule, if_there, capture_then, entry_then};
ghost use Rattle.rule_table.specs.Views.{rule_of};
ghost use Rattle.grammar_json.specs.GrammarViews.{grammar_view};
ghost use Rattle.grammar_json.specs.NamedViews.{named_view};
ghost use Rattle.graph_defs.specs.ListedRules.{is_there, listed_rules};
ghost use Rattle.graph_defs.specs.GraphMeaning.{unread_texts};
ghost use Rattle.rule_graph.specs.Walks.{after, with_listed, after_named, after_group, IsSmall};

use crate::includes::Targets;
use crate::lists::{group_of, listed_rule, members, scope_text};
use crate::slots::Patterns;
use grammar_defs::MOST_RULES;
use grammar_json::{Capture, Captures, Entries, Entry, Grammar, NamedRules, RawRule};
use rule_table::{Rule, ScopeText};
use std::alloc::{AllocError, Global};
use std::marker::Model;

/// The rules of a grammar as they are met, and the patterns that they were read by.
#[derive(Drop)]
pub(crate) struct Walk {
    alloc: Global,
    patterns: Patterns,
    rules: Vec<Rule>,
}

impl Model for Walk {
    ghost use Rattle.std.specs.Prelude.{map};
    ghost use Rattle.rule_table.specs.Views.{rule_of};
    ghost use Rattle.rule_graph.specs.Walks.{Walked};

    ghost Value = { Walked };

    ghost view = { λ w. record { rules = map rule_of w.rules.items; unread = w.patterns.unread } };
}

impl Walk {
    fn new(alloc: Global) -> Walk
        ensures { result ≡ record { rules = []; unread = 0 } }
    {
        Walk {
            alloc,
            patterns: Patterns::new(alloc),
            rules: Vec::new(alloc),
        }
    }

    /// Adds the rule itself.
    fn push_listed(&mut self, targets: &Targets, rule: &RawRule) -> Result<(), AllocError>
        requires { IsSmall (after targets.now self.old (placed (file_rule rule.now) nothing)) }
        ensures { OnOk result (self.new ≡ with_listed targets.now self.old (file_rule rule.now)) }
    {
        let id = self.rules.len() as u32;
        let rule = listed_rule(self.alloc, targets, &mut self.patterns, id, rule)?;
        self.rules.push(rule)?;
        Ok(())
    }

    /// Adds a rule and those in it.
    #[cycle(walk)]
    fn push_rule(&mut self, targets: &Targets, rule: &RawRule) -> Result<(), AllocError>
        requires { IsSmall (after targets.now self.old (placed (file_rule rule.now) nothing)) }
        ensures { OnOk result (self.new ≡ after targets.now self.old (placed (file_rule rule.now) nothing)) }
    {
        self.push_listed(targets, rule)?;
        self.push_captures(targets, &rule.captures)?;
        self.push_captures(targets, &rule.begin_captures)?;
        self.push_captures(targets, &rule.end_captures)?;
        self.push_captures(targets, &rule.while_captures)?;
        self.push_patterns(targets, &rule.patterns)
    }

    #[cycle(walk)]
    fn push_patterns(
        &mut self,
        targets: &Targets,
        patterns: &Option<Entries>,
    ) -> Result<(), AllocError>
        requires { IsSmall (after targets.now self.old (if_there patterns.now)) }
        ensures { OnOk result (self.new ≡ after targets.now self.old (if_there patterns.now)) }
    {
        match patterns {
            Some(entries) => self.push_entries(targets, entries),
            None => Ok(()),
        }
    }

    /// Adds the rules of a list.
    #[cycle(walk)]
    fn push_entries(&mut self, targets: &Targets, entries: &Entries) -> Result<(), AllocError>
        requires { IsSmall (after targets.now self.old entries.now) }
        ensures { OnOk result (self.new ≡ after targets.now self.old entries.now) }
    {
        for entry in entries.as_slice() {
            self.push_entry(targets, entry)?;
        }
        Ok(())
    }

    #[cycle(walk)]
    fn push_entry(&mut self, targets: &Targets, entry: &Entry) -> Result<(), AllocError>
        requires { IsSmall (after targets.now self.old (entry_then entry.now nothing)) }
        ensures { OnOk result (self.new ≡ after targets.now self.old (entry_then entry.now nothing)) }
    {
        match entry {
            Entry::Include(_) => Ok(()),
            Entry::Rule(rule) => self.push_rule(targets, rule),
        }
    }

    #[cycle(walk)]
    fn push_captures(
        &mut self,
        targets: &Targets,
        captures: &Option<Captures>,
    ) -> Result<(), AllocError>
        requires { IsSmall (after targets.now self.old (if_there captures.now)) }
        ensures { OnOk result (self.new ≡ after targets.now self.old (if_there captures.now)) }
    {
        match captures {
            Some(captures) => self.push_all_captures(targets, captures),
            None => Ok(()),
        }
    }

    /// Adds the rules of captures.
    #[cycle(walk)]
    fn push_all_captures(
        &mut self,
        targets: &Targets,
        captures: &Captures,
    ) -> Result<(), AllocError>
        requires { IsSmall (after targets.now self.old captures.now) }
        ensures { OnOk result (self.new ≡ after targets.now self.old captures.now) }
    {
        for capture in captures.as_slice() {
            self.push_capture(targets, capture)?;
        }
        Ok(())
    }

    #[cycle(walk)]
    fn push_capture(&mut self, targets: &Targets, capture: &Capture) -> Result<(), AllocError>
        requires { IsSmall (after targets.now self.old (capture_then capture.now nothing)) }
        ensures { OnOk result (self.new ≡ after targets.now self.old (capture_then capture.now nothing)) }
    {
        match &capture.patterns {
            Some(entries) => {
                self.push_group(targets, None, entries)?;
                self.push_entries(targets, entries)
            }
            None => Ok(()),
        }
    }

    /// Adds a group of the rules of a list.
    fn push_group(
        &mut self,
        targets: &Targets,
        name: Option<ScopeText>,
        entries: &Entries,
    ) -> Result<(), AllocError>
        requires { length self.old.rules + rules_of_list entries.now ≤ 65536 }
        ensures group { OnOk result (self.new ≡ after_group targets.now self.old name entries.now) }
        ensures there { is_there entries.now ≡ true }
    {
        let first = self.rules.len() as u32 + 1;
        let ids = members(self.alloc, targets, first, entries)?;
        self.rules.push(group_of(self.alloc, name, ids))?;
        Ok(())
    }

    /// Adds the rules of a repository, or of injections.
    fn push_named(&mut self, targets: &Targets, rules: &NamedRules) -> Result<(), AllocError>
        requires { IsSmall (after_named targets.now self.old (map named_view rules.now)) }
        ensures { OnOk result (self.new ≡ after_named targets.now self.old (map named_view rules.now)) }
    {
        for named in rules.as_slice() {
            self.push_rule(targets, &named.rule)?;
        }
        Ok(())
    }
}

/// All rules of a grammar by their numbers, as its file lists them, and how many texts of patterns can't be read.
pub fn listed(alloc: Global, grammar: &Grammar) -> Result<(Vec<Rule>, u32), AllocError>
    requires { rule_count (grammar_view grammar.now) ≤ MOST_RULES }
    ensures { IfOk result (λ r. (map rule_of r.0.items ≡ listed_rules (grammar_view grammar.now)) × (r.1 ≡ unread_texts (grammar_view grammar.now))) }
{
    let targets = Targets::of(alloc, grammar)?;
    let name = ScopeText::of(alloc, grammar.scope.text())?;
    let mut walk = Walk::new(alloc);
    walk.push_group(&targets, Some(name), &grammar.patterns)?;
    walk.push_entries(&targets, &grammar.patterns)?;
    walk.push_named(&targets, &grammar.repository)?;
    walk.push_named(&targets, &grammar.injections)?;
    let Walk {
        patterns,
        rules,
        ..
    } = walk;
    Ok((rules, patterns.unread()))
}
