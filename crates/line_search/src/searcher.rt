//! The search over the rules of a table, for a frame and its injections.

ghost use Rattle.std.specs.Prelude.{◌≡◌, ℕ, ◌<◌, ◌≤◌, ◌^◌, ◌↔◌, length, IfOk, IsTrue};
ghost use Rattle.std.specs.Rc.{rc_value};
ghost use Rattle.rule_defs.specs.Rules.{BeginWhile};
ghost use Rattle.line_defs.specs.Machine.{Machine};
ghost use Rattle.line_defs.specs.Search.{choices, finish_choice, in_order, scan};
ghost use Rattle.line_defs.specs.Injections.{with_injections};
ghost use Rattle.rule_table.specs.Fits.{HasRoom};
ghost use Rattle.rule_table.specs.Views.{slot_of};
ghost use Rattle.line_search.specs.Choices.{HaveRoom, HaveOwners};
ghost use Rattle.line_search.specs.Lists.{late_choice};
ghost use Rattle.line_search.specs.Finds.{found_of, IfAt, IsOwner, IsPartFrom};
ghost use Rattle.line_search.specs.Machines.{IsOf, kind_at};
ghost use Rattle.line_search.specs.declared.find.Find.TheVariants.{Spent};
ghost use Rattle.line_search.specs.Prepared.{HasInjections};

use crate::choices::{Choices, find_in_two};
use crate::find::Find;
use crate::injected::{Bests, Injected};
use crate::late::LateEnd;
use crate::lists::{RuleLists, lists_of};
use onig_match::Work;
use pattern_defs::Flags;
use rule_table::{Rule, RuleKind, RuleTable, Slot};
use scope_stack::{EndText, Frame, RuleId};
use std::alloc::{AllocError, Global};
use std::marker::Model;
use std::rc::Rc;

/// The search over the rules of a table. All that is searched for stands ready when it is made, but for the ends whose
/// texts are made of captures: of these the last is kept. Contracts see the table.
#[derive(Drop)]
pub struct Searcher {
    table: Rc<RuleTable>,
    lists: Vec<RuleLists>,
    late: LateEnd,
    injected: Injected,
}

impl Model for Searcher {
    ghost use Rattle.rule_table.specs.Views.{Table};

    ghost Value = { Table };

    ghost use Rattle.line_search.specs.Searchers.{table_of, IsSearcher};

    ghost view = { table_of };

    ghost invariant = { IsSearcher };
}

/// What the patterns that stand find from a place on, together with an end whose text is made of captures, if the slot
/// has one: before them or, where it comes last, behind them.
fn find_with_late(
    early: &Choices,
    late: &mut LateEnd,
    rule: &Rule,
    end: &EndText,
    work: &mut Work,
    text: &[char],
    from: u32,
    flags: Flags,
) -> Result<Find, AllocError>
    requires short { length text.now < 2 ^ 31 }
    requires inside { from ≤ length text.now }
    requires early { HaveRoom work.old.room early.now }
    requires late { HasRoom work.old.room (slot_of rule.now.finish) }
    ensures budget { work.new.budget ≡ work.old.budget }
    ensures room { work.new.room ≡ work.old.room }
    ensures found { IfOk result (λ find. found_of find work.new.hit
        ≡ scan (record { text = text.now; place = from; flags = flags; budget = work.old.budget })
        (in_order rule.now.finish_last (late_choice (slot_of rule.now.finish) end.now) early.now)) }
    ensures part { IfOk result (λ find. IfAt find (IsPartFrom from (length text.now) work.new.hit)) }
    ensures owner { IfOk result (λ find. (rules : ℕ) → HaveOwners rules early.now →
        IfAt find (λ m. IsOwner rules m.of)) }
{
    let Slot::Later { groups, .. } = &rule.finish else {
        return Ok(early.find(work, text, from, flags).find);
    };
    late.turn_to(end)?;
    let Some(late) = late.within(*groups) else {
        return Ok(early.find(work, text, from, flags).find);
    };
    if rule.finish_last {
        Ok(find_in_two(early, late, work, text, from, flags))
    } else {
        Ok(find_in_two(late, early, work, text, from, flags))
    }
}

fn is_spent(find: Find) -> bool
    ensures { IsTrue result ↔ (find ≡ Spent) }
{
    matches!(find, Find::Spent)
}

impl Searcher {
    pub fn new(alloc: Global, table: Rc<RuleTable>) -> Result<Searcher, AllocError>
        ensures { IfOk result (λ s. s ≡ rc_value table) }
    {
        let mut lists = Vec::with_capacity(alloc, table.len() as usize)?;
        for id in 0..table.len() {
            lists.push(lists_of(alloc, &table, RuleId(id))?)?;
        }
        let late = LateEnd::none(alloc)?;
        let injected = Injected::of(alloc, &table)?;
        Ok(Searcher {
            table,
            lists,
            late,
            injected,
        })
    }

    /// The rules.
    pub fn table(&self) -> &RuleTable
        ensures { result.now ≡ self.now }
    {
        &self.table
    }

    /// The most groups that a pattern has.
    pub fn groups(&self) -> u32
        ensures { result ≡ self.now.groups }
    {
        self.table.groups()
    }

    /// What the patterns of a frame find from a place on: the first match, by place and then by their order. What its
    /// groups took, `work` tells. Where a pattern is read for it and memory runs out, all is as before.
    pub fn ordinary(
        &mut self,
        work: &mut Work,
        frame: &Frame,
        text: &[char],
        from: u32,
        flags: Flags,
    ) -> Result<Find, AllocError>
        requires short { length text.now < 2 ^ 31 }
        requires inside { from ≤ length text.now }
        requires room { self.old.groups ≤ work.old.room }
        ensures same { self.new ≡ self.old }
        ensures budget { work.new.budget ≡ work.old.budget }
        ensures room { work.new.room ≡ work.old.room }
        ensures found { IfOk result (λ find. (machine : Machine) → IsOf self.old machine →
            found_of find work.new.hit
            ≡ scan (record { text = text.now; place = from; flags = flags; budget = work.old.budget })
            (choices machine frame.now)) }
        ensures part { IfOk result (λ find. IfAt find (IsPartFrom from (length text.now) work.new.hit)) }
        ensures owner { IfOk result (λ find. IfAt find (λ m. IsOwner (length self.old.rules) m.of)) }
    {
        let Some(lists) = self.lists.get(frame.rule.0 as usize) else {
            return Ok(Find::Nothing);
        };
        let rule = self.table.rule(frame.rule);
        match rule.kind {
            RuleKind::BeginEnd => find_with_late(
                &lists.inside,
                &mut self.late,
                rule,
                &frame.end,
                work,
                text,
                from,
                flags,
            ),
            _ => Ok(lists.inside.find(work, text, from, flags).find),
        }
    }

    /// What a turn finds from a place on: the first match of the patterns of a frame, or one of an injection that holds of
    /// the frame's content scopes and starts earlier, or at the same place where it goes first.
    pub fn search(
        &mut self,
        work: &mut Work,
        frame: &Frame,
        text: &[char],
        from: u32,
        flags: Flags,
    ) -> Result<Find, AllocError>
        requires short { length text.now < 2 ^ 31 }
        requires inside { from ≤ length text.now }
        requires room { self.old.groups ≤ work.old.room }
        ensures same { self.new ≡ self.old }
        ensures budget { work.new.budget ≡ work.old.budget }
        ensures room { work.new.room ≡ work.old.room }
        ensures found { IfOk result (λ find. (machine : Machine) → IsOf self.old machine →
            HasInjections self.old machine → found_of find work.new.hit ≡ with_injections machine
            (record { text = text.now; place = from; flags = flags; budget = work.old.budget }) frame.now.content
            (scan (record { text = text.now; place = from; flags = flags; budget = work.old.budget })
            (choices machine frame.now))) }
        ensures part { IfOk result (λ find. IfAt find (IsPartFrom from (length text.now) work.new.hit)) }
        ensures owner { IfOk result (λ find. IfAt find (λ m. IsOwner (length self.old.rules) m.of)) }
    {
        let ordinary = self.ordinary(work, frame, text, from, flags)?;
        if self.injected.is_empty() {
            return Ok(ordinary);
        }
        if is_spent(ordinary) {
            return Ok(ordinary);
        }
        match self.injected.best(work, &frame.content, text, from, flags)? {
            Bests::Spent => Ok(Find::Spent),
            Bests::Kept(None) => Ok(ordinary),
            Bests::Kept(Some(best)) => {
                if self.injected.wins(best, ordinary) {
                    return Ok(self.injected.again(best, work, text, flags));
                }
                match ordinary {
                    Find::At(m) => self.ordinary(work, frame, text, m.from, flags),
                    other => Ok(other),
                }
            }
        }
    }

    /// What the `while` pattern of a frame finds from a place on.
    pub fn while_found(
        &mut self,
        work: &mut Work,
        frame: &Frame,
        text: &[char],
        from: u32,
        flags: Flags,
    ) -> Result<Find, AllocError>
        requires kind { kind_at self.old frame.now.rule ≡ BeginWhile }
        requires short { length text.now < 2 ^ 31 }
        requires inside { from ≤ length text.now }
        requires room { self.old.groups ≤ work.old.room }
        ensures same { self.new ≡ self.old }
        ensures budget { work.new.budget ≡ work.old.budget }
        ensures room { work.new.room ≡ work.old.room }
        ensures found { IfOk result (λ find. (machine : Machine) → IsOf self.old machine →
            found_of find work.new.hit
            ≡ scan (record { text = text.now; place = from; flags = flags; budget = work.old.budget })
            (finish_choice machine frame.now)) }
        ensures part { IfOk result (λ find. IfAt find (IsPartFrom from (length text.now) work.new.hit)) }
        ensures owner { IfOk result (λ find. IfAt find (λ m. IsOwner (length self.old.rules) m.of)) }
    {
        let lists = &self.lists[frame.rule.0 as usize];
        let rule = self.table.rule(frame.rule);
        find_with_late(
            &lists.goes_on,
            &mut self.late,
            rule,
            &frame.end,
            work,
            text,
            from,
            flags,
        )
    }
}
