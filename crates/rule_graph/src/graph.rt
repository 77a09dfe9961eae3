//! The rules of a grammar as a graph: their numbers, read patterns and active lists, and its injections.

ghost use Rattle.std.specs.Prelude.{◌≡◌, ◌≤◌, ◌<◌, map, length};
ghost use Rattle.rule_table.specs.Views.{rule_of, slot_of, listed_of};
ghost use Rattle.grammar_defs.specs.GrammarShape.{rule_count};
ghost use Rattle.grammar_json.specs.GrammarViews.{grammar_view};
ghost use Rattle.graph_defs.specs.ActiveLists.{rule_at};
ghost use Rattle.graph_defs.specs.GraphMeaning.{most_groups, slot_groups, reading};
ghost use Rattle.rule_graph.specs.Listing.{numbers};
ghost use Rattle.rule_graph.specs.Graphs.{GivesGraph, table_in};
ghost use Rattle.rule_graph.specs.declared.graph.GraphRefusal.TheVariants.{Memory};

use crate::active::{active_lists, set_active};
use crate::injections::injections_of;
use crate::walk::listed;
use grammar_defs::MOST_RULES;
use grammar_json::Grammar;
use rule_table::{Injection, Rule, RuleTable, Slot};
use scope_defs::RuleId;
use std::alloc::{AllocError, AllocFailed, Global};
use std::marker::Model;
use thiserror::Error;

/// Why a grammar has no graph.
#[derive(Debug, Drop, Error)]
pub enum GraphRefusal {
    /// The active lists, added in order of rule number, are so long together: the first sum above `MOST_ACTIVE`.
    #[error("TooWide")]
    TooWide { count: u64 },
    /// There is no memory left.
    #[error("Memory")]
    Memory,
}

impl From<AllocError> for GraphRefusal {
    ghost from_gives = { λ _ e. e ≡ Memory };

    fn from(_e: AllocError) -> GraphRefusal {
        GraphRefusal::Memory
    }
}

impl<T: Drop> From<AllocFailed<T>> for GraphRefusal {
    ghost from_gives = { λ _ e. e ≡ Memory };

    fn from(_e: AllocFailed<T>) -> GraphRefusal {
        GraphRefusal::Memory
    }
}

/// How many groups a rule's pattern may have.
fn slot_groups(slot: &Slot) -> u32
    ensures { result ≡ slot_groups (slot_of slot.now) }
{
    match slot {
        Slot::Never => 0,
        Slot::Read(pattern) => pattern.groups(),
        Slot::Later { groups, .. } => *groups,
    }
}

/// The most groups that a pattern of a rule may have.
#[tactic(auto, using(crate::proofs::FitLemmas::most_next, crate::proofs::FitLemmas::most_done))]
fn most_groups(rules: &[Rule]) -> u32
    ensures { result ≡ most_groups (map rule_of rules.now) }
{
    let mut most = 0;
    for rule in rules {
        most = most.max(slot_groups(&rule.start).max(slot_groups(&rule.finish)));
    }
    most
}

/// The rules of a grammar: their numbers, read patterns and active lists; and its injections.
#[derive(Drop)]
pub struct Graph {
    table: RuleTable,
    unread: u32,
}

impl Model for Graph {
    ghost use Rattle.graph_defs.specs.GraphMeaning.{FileGraph};

    ghost Value = { FileGraph };

    ghost view = { λ g. record {
      rules = g.table.rules;
      injections = g.table.injections;
      groups = g.table.groups;
      unread = g.unread;
    } };
}

impl Graph {
    /// The graph of a grammar. Each pattern and each key of injections is read here, once; a pattern that can't be read
    /// never matches, a key that can't be read injects nothing, and both are counted.
    pub fn build(alloc: Global, grammar: &Grammar) -> Result<Graph, GraphRefusal>
        requires { rule_count (grammar_view grammar.now) ≤ MOST_RULES }
        ensures { GivesGraph result (reading (grammar_view grammar.now)) }
    {
        let (mut rules, unread) = listed(alloc, grammar)?;
        let lists = active_lists(alloc, rules.as_slice())?;
        set_active(&mut rules, lists);
        let groups = most_groups(rules.as_slice());
        let (injections, unread_keys) = injections_of(alloc, grammar)?;
        Ok(Graph {
            table: RuleTable::of(rules, injections, groups),
            unread: unread + unread_keys,
        })
    }

    /// The top.
    pub fn root(&self) -> RuleId
        ensures { result.0 ≡ 0 }
    {
        RuleId(0)
    }

    /// How many rules there are.
    pub fn rules(&self) -> u32
        ensures count { result ≡ length self.now.rules }
        ensures some { 0 < result }
    {
        self.table.len()
    }

    /// The most groups that a pattern may have.
    pub fn groups(&self) -> u32
        ensures { result ≡ self.now.groups }
    {
        self.table.groups()
    }

    /// How many texts of patterns and keys of injections can't be read.
    pub fn unread(&self) -> u32
        ensures { result ≡ self.now.unread }
    {
        self.unread
    }

    /// A rule.
    pub fn rule(&self, id: RuleId) -> &Rule
        requires { id.0 < length self.now.rules }
        ensures { rule_of result.now ≡ rule_at self.now.rules id.0 }
    {
        self.table.rule(id)
    }

    /// The rules that are searched inside a rule, without its end.
    pub fn expand(&self, id: RuleId) -> &[RuleId]
        requires { id.0 < length self.now.rules }
        ensures { numbers result.now ≡ (rule_at self.now.rules id.0).active }
    {
        self.table.rule(id).active.as_slice()
    }

    /// The injections, in the order in which they are searched: by priority, then by their keys, then by place in a key.
    pub fn injections(&self) -> &[Injection]
        ensures { map listed_of result.now ≡ self.now.injections }
    {
        self.table.injections()
    }

    /// The rules as a table.
    pub fn table(&self) -> &RuleTable
        ensures { result.now ≡ table_in self.now }
    {
        &self.table
    }

    pub fn into_table(self) -> RuleTable
        ensures { result ≡ table_in self }
    {
        self.table
    }
}
