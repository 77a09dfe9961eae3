//! The rules of a grammar by their numbers, with its injections in order.

ghost use Rattle.std.specs.Prelude.{◌≡◌, ◌<◌, ◌≤◌, ◌∷◌, length, map, slice_get, All, Some};
ghost use Rattle.rule_table.specs.Views.{rule_of, listed_of};
ghost use Rattle.rule_table.specs.Fits.{IsRule, AreRules, IsInjection};

use crate::injection::{Injection, Injections};
use crate::rule::Rule;
use scope_defs::RuleId;
use std::marker::Model;

/// The most rules of a grammar. The limit is this project's own.
pub const MOST_RULES: u32 = 65536;

/// The rules of a grammar, its injections in order, and how many groups one of its patterns may have. Rule 0 is the top.
#[derive(Drop)]
pub struct RuleTable {
    rules: Vec<Rule>,
    injections: Injections,
    groups: u32,
}

impl Model for RuleTable {
    ghost use Rattle.rule_table.specs.Views.{Table, table_of};
    ghost use Rattle.rule_table.specs.Fits.{IsTable};

    ghost Value = { Table };

    ghost view = { table_of };

    ghost invariant = { λ t. IsTable (table_of t) };
}

impl RuleTable {
    pub fn of(rules: Vec<Rule>, injections: Injections, groups: u32) -> RuleTable
        requires some { 0 < length rules.items }
        requires few { length rules.items ≤ MOST_RULES }
        requires fit { AreRules (length rules.items) groups (map rule_of rules.items) }
        requires injections { All (IsInjection (length rules.items)) (map listed_of injections) }
        ensures { result ≡ record { rules = map rule_of rules.items; injections = map listed_of injections; groups = groups } }
    {
        RuleTable {
            rules,
            injections,
            groups,
        }
    }

    /// The injections, in the order in which they are searched. Their entries are those of their selectors, and their
    /// rules are of this table.
    pub fn injections(&self) -> &[Injection]
        ensures injections { map listed_of result.now ≡ self.now.injections }
        ensures fit { All (IsInjection (length self.now.rules)) (map listed_of result.now) }
    {
        self.injections.as_slice()
    }

    /// How many rules there are.
    pub fn len(&self) -> u32
        ensures count { result ≡ length self.now.rules }
        ensures some { 0 < result }
        ensures few { result ≤ MOST_RULES }
    {
        self.rules.len() as u32
    }

    /// The most groups that a pattern of a rule has, or that a text which is read later may have.
    pub fn groups(&self) -> u32
        ensures { result ≡ self.now.groups }
    {
        self.groups
    }

    /// A rule. The rules that it names are of this table, and its patterns have no more groups than the table says.
    pub fn rule(&self, id: RuleId) -> &Rule
        requires { id.0 < length self.now.rules }
        ensures rule { slice_get self.now.rules id.0 ≡ Some (rule_of result.now) }
        ensures fits { IsRule (length self.now.rules) self.now.groups (rule_of result.now) }
    {
        &self.rules[id.0 as usize]
    }
}
