//! The while pass, which asks the frames of begin/while rules from the outermost inward.

ghost use Rattle.std.specs.Prelude.{◌≡◌, ◌≢◌, ℕ, ◌<◌, ◌≤◌, List, [], ◌∷◌, ◌++◌, length, reverse, slice_get, MatchOption, IfOk, OnOk, Some};
ghost use Rattle.scope_defs.specs.Frames.{Frame as OpenRule, frames};
ghost use Rattle.rule_defs.specs.Rules.{BeginWhile};
ghost use Rattle.rule_table.specs.Views.{rule_of};
ghost use Rattle.line_search.specs.Finds.{IsPartFrom};
ghost use Rattle.line_search.specs.Machines.{kind_at};
ghost use Rattle.line_defs.specs.declared.limits.TheConstants.{MOST_LEVELS};
ghost use Rattle.line_defs.specs.Frames.{popped};
ghost use Rattle.line_defs.specs.Runs.{State as RunsState, Turned};
ghost use Rattle.line_defs.specs.Search.{while_found};
ghost use Rattle.line_defs.specs.WhilePass.{kept_by, asked, pass_over};
ghost use Rattle.line_turns.specs.Over.{run_of, machine_over, IsReady, IsKept, AreOpen};
ghost use Rattle.line_turns.specs.Then.{matched_of};
ghost use Rattle.line_machine.specs.Passes.{pass_by, IfNext};

use line_defs::MOST_LEVELS;
use line_output::taken::takens_of;
use line_search::{Find, Match, Searcher};
use line_turns::{Over, RunState, tell_match};
use onig_match::Work;
use rule_table::{Rule, RuleKind, RuleTable};
use scope_defs::RuleId;
use scope_stack::{Frame, Stack};
use std::alloc::AllocError;

/// How the pass goes on behind a frame: with the next frame, with the run, or not at all.
#[derive(Clone, Copy, Debug, PartialEq, Eq)]
pub(crate) enum Passed {
    Next,
    Ends,
    Stops,
}

/// The rule of a frame, where it is a begin/while rule.
fn while_rule(table: &RuleTable, id: RuleId) -> Option<&Rule>
    ensures { MatchOption result (kind_at table.now id.0 ≢ BeginWhile)
        (λ rule. (slice_get table.now.rules id.0 ≡ Some (rule_of rule.now)) × (kind_at table.now id.0 ≡ BeginWhile)) }
{
    if id.0 >= table.len() {
        return None;
    }
    let rule = table.rule(id);
    match rule.kind {
        RuleKind::BeginWhile => Some(rule),
        _ => None,
    }
}

/// Tells the match of a frame's while pattern.
fn keep(
    over: &Over<'_>,
    searcher: &mut Searcher,
    work: &mut Work,
    frame: &Frame,
    rule: &Rule,
    m: Match,
    state: &mut RunState,
) -> Result<(), AllocError>
    requires ready { IsReady over.now MOST_LEVELS searcher.old work.old }
    requires open_ { AreOpen over.now MOST_LEVELS state.old.stack }
    requires part { IsPartFrom state.old.place (length over.now.text.now) work.old.hit m }
    ensures kept { IsKept searcher.old searcher.new work.old work.new }
    ensures told { OnOk result (state.new ≡ kept_by (run_of over.now MOST_LEVELS) frame.now (rule_of rule.now)
        (matched_of m work.old.hit) state.old) }
{
    let takens = takens_of(over.alloc, &rule.finish_captures, over.text, work)?;
    tell_match(
        over,
        searcher,
        work,
        MOST_LEVELS,
        &frame.content,
        &frame.content,
        m,
        takens.as_slice(),
        state,
    )?;
    state.anchor = Some(m.to);
    state.advance(m.to);
    Ok(())
}

/// The frames below the innermost, or that one alone where it is the root.
fn popped(stack: &Stack) -> Result<Stack, AllocError>
    ensures { IfOk result (λ s. s ≡ popped stack.now) }
{
    match stack.below() {
        Some(below) => below.copy(),
        None => stack.copy(),
    }
}

/// Asks a frame of a begin/while rule, which stands on those below.
fn ask(
    over: &Over<'_>,
    searcher: &mut Searcher,
    work: &mut Work,
    stack: &Stack,
    rule: &Rule,
    state: &mut RunState,
) -> Result<Passed, AllocError>
    requires ready { IsReady over.now MOST_LEVELS searcher.old work.old }
    requires open_ { AreOpen over.now MOST_LEVELS state.old.stack }
    requires inside { state.old.place ≤ length over.now.text.now }
    requires rule { slice_get over.now.table.now.rules stack.now.top.rule ≡ Some (rule_of rule.now) }
    requires kind { kind_at over.now.table.now stack.now.top.rule ≡ BeginWhile }
    ensures kept { IsKept searcher.old searcher.new work.old work.new }
    ensures asked { IfOk result (λ p. (next : RunsState → Turned) →
        asked (while_found (machine_over over.now) over.now.text.now state.old stack.now.top) (run_of over.now MOST_LEVELS)
        stack.now.top stack.now.below state.old next ≡ pass_by p state.new next) }
    ensures stays { IfOk result (λ p. IfNext p (state.new.stack ≡ state.old.stack)) }
    ensures inside { IfOk result (λ p. IfNext p (state.new.place ≤ length over.now.text.now)) }
{
    let flags = state.flags();
    match searcher.while_found(work, stack.top(), over.text, state.place, flags)? {
        Find::Nothing => {
            state.stack = popped(stack)?;
            Ok(Passed::Ends)
        }
        Find::Spent => {
            state.out.set_spent();
            state.rest(over.text)?;
            Ok(Passed::Stops)
        }
        Find::At(m) => {
            keep(over, searcher, work, stack.top(), rule, m, state)?;
            Ok(Passed::Next)
        }
    }
}

/// Asks the innermost frame, where it is of a begin/while rule.
fn ask_top(
    over: &Over<'_>,
    searcher: &mut Searcher,
    work: &mut Work,
    stack: &Stack,
    state: &mut RunState,
) -> Result<Passed, AllocError>
    requires ready { IsReady over.now MOST_LEVELS searcher.old work.old }
    requires open_ { AreOpen over.now MOST_LEVELS state.old.stack }
    requires inside { state.old.place ≤ length over.now.text.now }
    ensures kept { IsKept searcher.old searcher.new work.old work.new }
    ensures asked { IfOk result (λ p. (above : List OpenRule) →
        pass_over (run_of over.now MOST_LEVELS) (stack.now.top ∷ above) stack.now.below state.old
        ≡ pass_by p state.new (pass_over (run_of over.now MOST_LEVELS) above (frames stack.now))) }
    ensures stays { IfOk result (λ p. IfNext p (state.new.stack ≡ state.old.stack)) }
    ensures inside { IfOk result (λ p. IfNext p (state.new.place ≤ length over.now.text.now)) }
{
    match while_rule(over.table, stack.top().rule) {
        Some(rule) => ask(over, searcher, work, stack, rule, state),
        None => Ok(Passed::Next),
    }
}

/// Asks the frames from the outermost inward.
pub(crate) fn pass(
    over: &Over<'_>,
    searcher: &mut Searcher,
    work: &mut Work,
    stack: &Stack,
    state: &mut RunState,
) -> Result<Passed, AllocError>
    requires ready { IsReady over.now MOST_LEVELS searcher.old work.old }
    requires open_ { AreOpen over.now MOST_LEVELS state.old.stack }
    requires inside { state.old.place ≤ length over.now.text.now }
    ensures kept { IsKept searcher.old searcher.new work.old work.new }
    ensures passed { IfOk result (λ p. (above : List OpenRule) →
        pass_over (run_of over.now MOST_LEVELS) (reverse (frames stack.now) ++ above) [] state.old
        ≡ pass_by p state.new (pass_over (run_of over.now MOST_LEVELS) above (frames stack.now))) }
    ensures stays { IfOk result (λ p. IfNext p (state.new.stack ≡ state.old.stack)) }
    ensures inside { IfOk result (λ p. IfNext p (state.new.place ≤ length over.now.text.now)) }
{
    match stack.below() {
        None => ask_top(over, searcher, work, stack, state),
        Some(below) => match pass(over, searcher, work, below, state)? {
            Passed::Next => ask_top(over, searcher, work, stack, state),
            Passed::Ends => Ok(Passed::Ends),
            Passed::Stops => Ok(Passed::Stops),
        },
    }
}
