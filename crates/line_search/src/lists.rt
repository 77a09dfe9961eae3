//! The patterns of a rule that stand before a line is run.

ghost use Rattle.std.specs.Prelude.{◌≡◌, ◌<◌, ◌++◌, All, length, map, slice_get, Some, IfOk, OnOk, option_map};
ghost use Rattle.rule_table.specs.Fits.{IsRule};
ghost use Rattle.rule_table.specs.Views.{rule_of, slot_of};
ghost use Rattle.line_defs.specs.Search.{choice_of, pattern_of, rule_choices};
ghost use Rattle.line_search.specs.Choices.{choice_of_owned, AreOf};
ghost use Rattle.line_search.specs.Finds.{owner_of};
ghost use Rattle.line_search.specs.Lists.{early, early_choices, end_where, while_choices, lists_of, AreListsOf};

use crate::choices::{Choices, Owned};
use crate::find::Of;
use rule_table::{Rule, RuleId, RuleKind, RuleTable, Slot};
use std::alloc::{AllocError, Global};

/// The patterns of a rule that stand before a line is run.
#[derive(Drop)]
pub(crate) struct RuleLists {
    /// Those that are searched in a frame of the rule.
    pub inside: Choices,
    /// That of its `while`.
    pub goes_on: Choices,
}

/// Adds the pattern of a slot, if it has one.
fn push_slot(all: &mut Vec<Owned>, of: Of, slot: &Slot) -> Result<(), AllocError>
    ensures { OnOk result (map choice_of_owned all.new.items
        ≡ map choice_of_owned all.old.items ++ choice_of (owner_of of) (pattern_of (slot_of slot.now))) }
{
    if let Slot::Read(pattern) = slot {
        let pattern = pattern.clone()?;
        all.push(Owned { of, pattern })?;
    }
    Ok(())
}

/// Adds the pattern of the end, if it stands so in the list.
fn push_end(all: &mut Vec<Owned>, rule: &Rule, last: bool) -> Result<(), AllocError>
    ensures { OnOk result (map choice_of_owned all.new.items
        ≡ map choice_of_owned all.old.items ++ end_where last (rule_of rule.now)) }
{
    if rule.kind == RuleKind::BeginEnd && rule.finish_last == last {
        push_slot(all, Of::End, &rule.finish)?;
    }
    Ok(())
}

/// Adds the patterns of rules.
pub(crate) fn push_rules(
    all: &mut Vec<Owned>,
    table: &RuleTable,
    ids: &[RuleId],
) -> Result<(), AllocError>
    requires { All (λ id. id.0 < length table.now.rules) ids.now }
    ensures rules { OnOk result (map choice_of_owned all.new.items
        ≡ map choice_of_owned all.old.items ++ rule_choices (early table.now.rules) (map (λ id. id.0) ids.now)) }
    ensures fit { OnOk result (AreOf (length table.now.rules) table.now.groups (map choice_of_owned all.old.items) →
        AreOf (length table.now.rules) table.now.groups (map choice_of_owned all.new.items)) }
{
    for id in ids {
        push_slot(all, Of::Rule(*id), &table.rule(*id).start)?;
    }
    Ok(())
}

/// What is searched in a frame of a rule.
fn inside_of(alloc: Global, table: &RuleTable, rule: &Rule) -> Result<Choices, AllocError>
    requires { IsRule (length table.now.rules) table.now.groups (rule_of rule.now) }
    ensures choices { IfOk result (λ choices. choices ≡ early_choices table.now.rules (rule_of rule.now)) }
    ensures fit { IfOk result (λ choices. AreOf (length table.now.rules) table.now.groups choices) }
{
    let mut all = Vec::new(alloc);
    push_end(&mut all, rule, false)?;
    push_rules(&mut all, table, rule.active.as_slice())?;
    push_end(&mut all, rule, true)?;
    Choices::of(alloc, all)
}

/// What the `while` of a rule is searched by.
fn goes_on_of(alloc: Global, rule: &Rule) -> Result<Choices, AllocError>
    ensures { IfOk result (λ choices. choices ≡ while_choices (rule_of rule.now).kind (rule_of rule.now)) }
{
    let mut all = Vec::new(alloc);
    if rule.kind == RuleKind::BeginWhile {
        push_slot(&mut all, Of::End, &rule.finish)?;
    }
    Choices::of(alloc, all)
}

/// The lists of a rule.
pub(crate) fn lists_of(
    alloc: Global,
    table: &RuleTable,
    id: RuleId,
) -> Result<RuleLists, AllocError>
    requires { id.0 < length table.now.rules }
    ensures lists { IfOk result (λ lists. option_map (lists_of table.now.rules) (slice_get table.now.rules id.0)
        ≡ Some lists) }
    ensures fit { IfOk result (λ lists. AreListsOf (length table.now.rules) table.now.groups lists) }
{
    let rule = table.rule(id);
    let inside = inside_of(alloc, table, rule)?;
    let goes_on = goes_on_of(alloc, rule)?;
    Ok(RuleLists { inside, goes_on })
}
