//! Active lists of rules, in which each group is replaced by what it lists.

ghost use Rattle.std.specs.Prelude.{◌≡◌, ◌≤◌, ◌<◌, ◌+◌, ◌++◌, length, map, reverse, All, IfOk, OnOk};
ghost use Rattle.rule_table.specs.Views.{rule_of};
ghost use Rattle.graph_defs.specs.ActiveLists.{active_list};
ghost use Rattle.rule_graph.specs.Listing.{numbers};
ghost use Rattle.rule_graph.specs.Opening.{AreWithin, GivesLists, with_lists};

use crate::graph::GraphRefusal;
use grammar_defs::MOST_RULES;
use graph_defs::MOST_ACTIVE;
use rule_table::{Rule, RuleIds, RuleKind};
use scope_defs::RuleId;
use std::alloc::{AllocError, Global};

/// Adds the ids so that the first of them is taken from the end first.
fn push_reversed(todo: &mut Vec<RuleId>, ids: &[RuleId]) -> Result<(), AllocError>
    ensures { OnOk result (reverse todo.new.items ≡ ids.now ++ reverse todo.old.items) }
{
    let mut left = ids.len();
    while left > 0 {
        left -= 1;
        todo.push(ids[left])?;
    }
    Ok(())
}

/// The list of a rule without its groups: each is replaced by what it lists, where it wasn't replaced before in this
/// list. `stamps` says of each group in which list it was last replaced; this list has the number `stamp`.
fn active_list(
    alloc: Global,
    rules: &[Rule],
    stamps: &mut [u32],
    stamp: u32,
    list: &RuleIds,
) -> Result<RuleIds, AllocError>
    requires rules { AreWithin (length rules.now) (map rule_of rules.now) }
    requires list { All (λ id. id < length rules.now) (numbers list.now) }
    requires stamps { length stamps.old ≡ length rules.now }
    requires stamp { 0 < stamp }
    requires fresh { All (λ s. s < stamp) stamps.old }
    ensures list { IfOk result (λ ids. numbers ids ≡ active_list (map rule_of rules.now) (numbers list.now)) }
    ensures stamps { OnOk result (All (λ s. s < stamp + 1) stamps.new) }
{
    let mut active = RuleIds::new(alloc);
    let mut todo = Vec::new(alloc);
    push_reversed(&mut todo, list.as_slice())?;
    while let Some(id) = todo.pop() {
        let at = id.0 as usize;
        let rule = &rules[at];
        if rule.kind != RuleKind::Group {
            active.push(id)?;
        } else if stamps[at] != stamp {
            stamps[at] = stamp;
            push_reversed(&mut todo, rule.active.as_slice())?;
        }
    }
    Ok(active)
}

/// The active lists of rules, by their numbers.
pub(crate) fn active_lists(alloc: Global, rules: &[Rule]) -> Result<Vec<RuleIds>, GraphRefusal>
    requires within { AreWithin (length rules.now) (map rule_of rules.now) }
    requires few { length rules.now ≤ MOST_RULES }
    ensures { GivesLists result (map rule_of rules.now) }
{
    let mut stamps = Vec::from_elem(alloc, 0u32, rules.len())?;
    let mut lists = Vec::new(alloc);
    let mut stamp = 0;
    let mut sum = 0;
    for rule in rules {
        stamp += 1;
        let list = active_list(alloc, rules, stamps.as_mut_slice(), stamp, &rule.active)?;
        sum += list.as_slice().len() as u64;
        if sum > MOST_ACTIVE {
            return Err(GraphRefusal::TooWide { count: sum });
        }
        lists.push(list)?;
    }
    Ok(lists)
}

/// Gives each rule its active list.
pub(crate) fn set_active(rules: &mut Vec<Rule>, mut lists: Vec<RuleIds>)
    requires { length lists.items ≤ length rules.old.items }
    ensures { map rule_of rules.new.items ≡ with_lists (map rule_of rules.old.items) (map numbers lists.items) }
{
    while let Some(list) = lists.pop() {
        let at = lists.len();
        rules[at].active = list;
    }
}
