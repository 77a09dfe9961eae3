//! Which rule the name in an include stands for.

ghost use Rattle.std.specs.Prelude.{◌≡◌, ◌+◌, ◌<◌, ◌≤◌, ◌^◌, ℕ, List, map, IfOk, option_map};
ghost use Rattle.std.specs.BTreeMap.{get_by_text};
ghost use Rattle.grammar_defs.specs.GrammarShape.{rule_count, rules_of_named};
ghost use Rattle.grammar_json.specs.GrammarViews.{grammar_view};
ghost use Rattle.grammar_json.specs.NamedViews.{named_view};
ghost use Rattle.graph_defs.specs.Includes.{number_of, behind, key_in, is_top, target};
ghost use Rattle.rule_graph.specs.Keys.{AreNumbers, BehindIs};

use grammar_defs::MOST_RULES;
use grammar_json::count::{count_of_rule, entries_count, named_count};
use grammar_json::{Grammar, NamedRules};
use scope_defs::RuleId;
use std::alloc::{AllocError, Global};
use std::collections::BTreeMap;
use std::marker::Model;

/// What stands behind a front of a text.
fn behind<'a>(front: &str, text: &'a str) -> Option<&'a str>
    ensures { BehindIs (behind front.now text.now) result }
{
    text.strip_prefix(front)
}

/// The key in `#key`, which the grammar's own name may stand before.
fn key_in<'a>(scope: &str, name: &'a str) -> Option<&'a str>
    ensures { BehindIs (key_in scope.now name.now) result }
{
    match behind("#", name) {
        Some(key) => Some(key),
        None => match behind(scope, name) {
            Some(rest) => behind("#", rest),
            None => None,
        },
    }
}

/// Whether a name is the whole grammar's.
fn is_top(scope: &str, name: &str) -> bool
    ensures { result ≡ is_top scope.now name.now }
{
    name == "$self" || name == "$base" || name == scope
}

/// The numbers of named rules, of which the first has the number `first`.
fn numbers_of(
    alloc: Global,
    rules: &NamedRules,
    first: u64,
) -> Result<BTreeMap<String, u32>, AllocError>
    requires { first + rules_of_named (map named_view rules.now) < 2 ^ 32 }
    ensures { IfOk result (λ numbers. AreNumbers numbers first (map named_view rules.now)) }
{
    let mut next = first + named_count(rules);
    let rules = rules.as_slice();
    let mut numbers = BTreeMap::new(alloc);
    let mut left = rules.len();
    while left > 0 {
        left -= 1;
        let named = &rules[left];
        next -= count_of_rule(&named.rule);
        numbers.insert(String::from_str(alloc, named.key.text())?, next as u32)?;
    }
    Ok(numbers)
}

/// The rules of a grammar that an include may name.
#[derive(Drop)]
pub(crate) struct Targets<'a> {
    grammar: &'a Grammar,
    numbers: BTreeMap<String, u32>,
}

impl<'a> Model for Targets<'a> {
    ghost use Rattle.grammar_defs.specs.FileRules.{Grammar as FileGrammar};
    ghost use Rattle.grammar_json.specs.GrammarViews.{grammar_view};
    ghost use Rattle.rule_graph.specs.Keys.{KnowsRepository};
    ghost use Rattle.std.specs.Coded.{codes};
    ghost use Rattle.grammar_defs.specs.FileRulesCode.{file_list_code};

    ghost Value = { FileGrammar };

    ghost coded = { Prim.hlevel (codes, file_list_code) };

    ghost view = { λ t. grammar_view t.grammar.now };

    ghost invariant = { λ t. KnowsRepository t.numbers (grammar_view t.grammar.now) };
}

impl<'a> Targets<'a> {
    pub fn of(alloc: Global, grammar: &'a Grammar) -> Result<Targets<'a>, AllocError>
        requires { rule_count (grammar_view grammar.now) ≤ MOST_RULES }
        ensures { IfOk result (λ t. t ≡ grammar_view grammar.now) }
    {
        let first = 1 + entries_count(&grammar.patterns);
        let numbers = numbers_of(alloc, &grammar.repository, first)?;
        Ok(Targets { grammar, numbers })
    }

    /// The rule that an include stands for.
    pub fn target(&self, name: &str) -> Option<RuleId>
        ensures { option_map (λ id. id.0) result ≡ target self.now name.now }
    {
        if is_top(self.grammar.scope.text(), name) {
            return Some(RuleId(0));
        }
        let key = key_in(self.grammar.scope.text(), name)?;
        let number = self.numbers.get(key)?;
        Some(RuleId(*number))
    }
}
