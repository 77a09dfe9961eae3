//! Reads the keys of a grammar's injections, and puts their entries in the order in which they are searched.

ghost use Rattle.std.specs.Prelude.{◌≡◌, ◌+◌, ◌<◌, ◌≤◌, ◌^◌, ◌++◌, [], ◌∷◌, length, map, IfOk, OnOk};
ghost use Rattle.std.specs.Rc.{rc_value};
ghost use Rattle.std.specs.List.{count_by, filter};
ghost use Rattle.grammar_defs.specs.GrammarShape.{rule_count, rules_of_named};
ghost use Rattle.grammar_json.specs.GrammarViews.{grammar_view};
ghost use Rattle.grammar_json.specs.NamedViews.{named_view};
ghost use Rattle.scope_defs.specs.SelectorSyntax.{entries_of};
ghost use Rattle.injection_defs.specs.Injections.{rank, has_rank};
ghost use Rattle.rule_table.specs.Views.{listed_of};
ghost use Rattle.graph_defs.specs.ListedInjections.{key_entries, listed_from, injections, is_no_selector, unread_keys};
ghost use Rattle.rule_graph.specs.Keyed.{entry_of_key, entries_of_key, listed_keys};

use grammar_defs::MOST_RULES;
use grammar_json::count::{count_of_rule, entries_count, named_count};
use grammar_json::{Grammar, NamedRules};
use rule_table::{Injection, Injections};
use scope_defs::RuleId;
use selectors::{Selector, SelectorRefusal};
use std::alloc::{AllocError, Global};
use std::rc::Rc;
use text_pos::Items;

/// A key of injections that is a selector, and its rule.
#[derive(Drop)]
struct Key {
    selector: Rc<Selector>,
    rule: RuleId,
}

/// The keys that are selectors, and how many aren't.
#[derive(Drop)]
struct Keys {
    read: Items<Key>,
    unread: u32,
}

/// Reads a key.
fn read_key(alloc: Global, keys: &mut Keys, key: &str, rule: RuleId) -> Result<(), AllocError>
    requires { keys.old.unread + 1 < 2 ^ 32 }
    ensures read { OnOk result (listed_keys keys.new.read ≡ listed_keys keys.old.read ++ key_entries key.now rule.0) }
    ensures unread { OnOk result (keys.new.unread ≡ keys.old.unread + count_by is_no_selector (key.now ∷ [])) }
{
    match Selector::read(alloc, key) {
        Ok(selector) => keys.read.push(Key {
            selector: Rc::new(alloc, selector)?,
            rule,
        }),
        Err(SelectorRefusal::Memory) => Err(AllocError),
        Err(SelectorRefusal::Syntax { at: _ }) => {
            keys.unread += 1;
            Ok(())
        }
    }
}

/// Reads the keys of injections, the first of whose rules has the number `first`.
fn read_keys(alloc: Global, rules: &NamedRules, first: u32) -> Result<Keys, AllocError>
    requires { first + rules_of_named (map named_view rules.now) ≤ MOST_RULES }
    ensures read { IfOk result (λ keys. listed_keys keys.read ≡ listed_from first (map named_view rules.now)) }
    ensures unread { IfOk result (λ keys. keys.unread ≡ unread_keys (map named_view rules.now)) }
{
    let mut keys = Keys {
        read: Items::new(alloc),
        unread: 0,
    };
    let mut next = first;
    for named in rules.as_slice() {
        read_key(alloc, &mut keys, named.key.text(), RuleId(next))?;
        next += count_of_rule(&named.rule) as u32;
    }
    Ok(keys)
}

/// Which priorities come before which: the negative ones, then 0.
fn rank(priority: i8) -> u32
    ensures { result ≡ rank priority }
{
    if priority < 0 {
        0
    } else if priority == 0 {
        1
    } else {
        2
    }
}

/// Adds an entry of a key, if its priority has a rank.
fn push_entry(all: &mut Injections, key: &Key, entry: u64, of: u32) -> Result<(), AllocError>
    requires { entry < length (entries_of (rc_value key.now.selector)) }
    ensures { OnOk result (map listed_of all.new
        ≡ map listed_of all.old ++ filter (has_rank of) (entry_of_key key.now entry ∷ [])) }
{
    let priority = key.selector.priority(entry);
    if rank(priority) != of {
        return Ok(());
    }
    all.push(Injection {
        priority,
        selector: key.selector.clone()?,
        entry,
        rule: key.rule,
    })
}

/// Adds the entries of a key whose priorities have a rank.
fn push_key(all: &mut Injections, key: &Key, of: u32) -> Result<(), AllocError>
    ensures { OnOk result (map listed_of all.new ≡ map listed_of all.old ++ filter (has_rank of) (entries_of_key key.now)) }
{
    for entry in 0..key.selector.entries() {
        push_entry(all, key, entry, of)?;
    }
    Ok(())
}

/// The same of keys.
fn push_keys(all: &mut Injections, keys: &[Key], of: u32) -> Result<(), AllocError>
    ensures { OnOk result (map listed_of all.new ≡ map listed_of all.old ++ filter (has_rank of) (listed_keys keys.now)) }
{
    for key in keys {
        push_key(all, key, of)?;
    }
    Ok(())
}

/// The injections of a grammar in order, and how many of their keys can't be read.
pub(crate) fn injections_of(
    alloc: Global,
    grammar: &Grammar,
) -> Result<(Injections, u32), AllocError>
    requires { rule_count (grammar_view grammar.now) ≤ MOST_RULES }
    ensures { IfOk result (λ r. (map listed_of r.0 ≡ injections (grammar_view grammar.now))
        × (r.1 ≡ unread_keys (grammar_view grammar.now).injections)) }
{
    let first = 1 + entries_count(&grammar.patterns) + named_count(&grammar.repository);
    let keys = read_keys(alloc, &grammar.injections, first as u32)?;
    let mut all = Injections::new(alloc);
    push_keys(&mut all, keys.read.as_slice(), 0)?;
    push_keys(&mut all, keys.read.as_slice(), 1)?;
    push_keys(&mut all, keys.read.as_slice(), 2)?;
    Ok((all, keys.unread))
}
