//! The run over a text, turn by turn, and what each turn does with a match.

ghost use Rattle.std.specs.Prelude.{◌≡◌, ℕ, ◌+◌, ◌*◌, ◌-◌, ◌<◌, ◌≤◌, ◌^◌, List, [], length, map, All, OnOk, IfOk, IfSome, IsTrue, Some, true, false, ◌==◌, ◌&&◌};
ghost use Rattle.pattern_defs.specs.Attempt.{Captures, capture_of};
ghost use Rattle.onig_match.specs.Works.{IsPart};
ghost use Rattle.scope_defs.specs.Frames.{depth, frames, on};
ghost use Rattle.rule_defs.specs.Rules.{Rule as LineRule};
ghost use Rattle.rule_table.specs.declared.rule.RuleCapture.{RuleCapture};
ghost use Rattle.rule_table.specs.Views.{rule_of, slot_of, entry_of};
ghost use Rattle.line_search.specs.Finds.{IsPartFrom};
ghost use Rattle.line_output.specs.Taken.{takens_of};
ghost use Rattle.line_defs.specs.Machine.{rule_at};
ghost use Rattle.line_defs.specs.Frames.{is_at};
ghost use Rattle.line_defs.specs.Search.{OfEnd};
ghost use Rattle.line_defs.specs.Runs.{GoesOn, Stops, rest, advanced};
ghost use Rattle.line_defs.specs.Turns.{turn, end_found, match_found, begin_found, rule_found, is_entered, run_from, kept_end};
ghost use Rattle.line_defs.specs.Turns.{rest_where, popped_where, is_here, ended, begun, names, new_frame, is_stuck, told_match};
ghost use Rattle.line_defs.specs.Line.{inside_by};
ghost use Rattle.line_laws.specs.RunEnds.{IsRunning};
ghost use Rattle.line_turns.specs.Over.{run_of, machine_over, few_at, IsReady, IsKept, AreOpen};
ghost use Rattle.line_turns.specs.Telling.{telling_of, taken_told, takens_told, all_told, inside_told, named_locals};
ghost use Rattle.line_turns.specs.Then.{turned_of, matched_of, IsInside};

use crate::over::Over;
use crate::run_state::RunState;
use line_defs::MOST_OPEN;
use line_output::names::{pushed, with_pieces};
use line_output::taken::takens_of;
use line_output::{Locals, Output, Taken};
use line_search::{Find, Match, Of, Searcher};
use onig_match::Work;
use rule_table::{Rule, RuleKind, Slot};
use scope_defs::RuleId;
use scope_names::Scopes;
use scope_stack::{EndText, Frame, Stack};
use scope_texts::end_text;
use std::alloc::AllocError;

/// Whether a turn lets the run go on.
#[derive(Clone, Copy, Debug, PartialEq, Eq)]
pub enum Then {
    GoesOn,
    Stops,
}

/// What the captures of a match are told of: the open rules, whether the text is the first, the scopes around, and where
/// the match ends.
#[derive(Clone, Copy)]
pub struct Around<'a> {
    pub stack: &'a Stack,
    pub first: bool,
    pub scopes: &'a Scopes,
    pub to: u32,
}

/// A run of its own over a capture. What it tells is kept, and its frames are dropped.
#[cycle(run)]
fn run_inside(
    over: &Over<'_>,
    searcher: &mut Searcher,
    work: &mut Work,
    levels: u32,
    around: &Around<'_>,
    taken: &Taken,
    rule: RuleId,
    out: &mut Output,
) -> Result<(), AllocError>
    requires ready { IsReady over.now levels searcher.old work.old }
    requires open_ { AreOpen over.now levels around.now.stack.now }
    requires some { 0 < levels }
    requires inside { IsInside (length over.now.text.now) taken.now }
    ensures kept { IsKept searcher.old searcher.new work.old work.new }
    ensures told { OnOk result (out.new ≡ inside_told (telling_of over.now levels around.now)
        (run_from (machine_over over.now) (inside_by (machine_over over.now) (levels - 1))) taken.now rule out.old) }
{
    let name = with_pieces(over.alloc, around.scopes, &taken.name)?;
    let content = with_pieces(over.alloc, &name, &taken.content)?;
    let frame = Frame {
        rule,
        enter: Some(taken.place.from),
        anchor: None,
        took_end: false,
        end: EndText::none(),
        name,
        content,
    };
    let stack = around.stack.push(over.alloc, frame)?;
    let told = std::mem::replace(out, Output::new(over.alloc));
    let mut state = RunState {
        place: taken.place.from,
        anchor: None,
        first: around.first && taken.place.from == 0,
        stack,
        out: told,
    };
    let inner = Over {
        alloc: over.alloc,
        table: over.table,
        limits: over.limits,
        text: &over.text[..taken.place.to as usize],
    };
    run(&inner, searcher, work, levels - 1, &mut state)?;
    let RunState {
        place: _,
        anchor: _,
        first: _,
        stack: _,
        out: told,
    } = state;
    *out = told;
    Ok(())
}

/// Tells a capture: by a run of its own where it has patterns and one may still begin, else by its name.
#[cycle(run)]
fn tell_taken(
    over: &Over<'_>,
    searcher: &mut Searcher,
    work: &mut Work,
    levels: u32,
    around: &Around<'_>,
    taken: &Taken,
    locals: &mut Locals,
    out: &mut Output,
) -> Result<(), AllocError>
    requires ready { IsReady over.now levels searcher.old work.old }
    requires open_ { AreOpen over.now levels around.now.stack.now }
    requires inside { IsInside (length over.now.text.now) taken.now }
    ensures kept { IsKept searcher.old searcher.new work.old work.new }
    ensures told { OnOk result (record { out = out.new; locals = locals.new }
        ≡ taken_told (telling_of over.now levels around.now) taken.now (record { out = out.old; locals = locals.old })) }
{
    locals.close_to(out, taken.place.from)?;
    out.put(locals.innermost(around.scopes), taken.place.from)?;
    match taken.inner {
        Some(rule) if levels > 0 => {
            run_inside(over, searcher, work, levels, around, taken, rule, out)
        }
        _ => open_named(over, around, taken, locals),
    }
}

/// Opens a capture, if it has a name.
fn open_named(
    over: &Over<'_>,
    around: &Around<'_>,
    taken: &Taken,
    locals: &mut Locals,
) -> Result<(), AllocError>
    ensures { OnOk result (locals.new
        ≡ named_locals around.now.scopes.now taken.now.name taken.now.place.to locals.old) }
{
    if let Some(name) = &taken.name {
        let scopes = locals
            .innermost(around.scopes)
            .push_shared(over.alloc, name)?;
        locals.open(scopes, taken.place.to)?;
    }
    Ok(())
}

/// Tells the captures of a match up to one that starts behind it.
#[cycle(run)]
fn tell_all(
    over: &Over<'_>,
    searcher: &mut Searcher,
    work: &mut Work,
    levels: u32,
    around: &Around<'_>,
    takens: &[Taken],
    locals: &mut Locals,
    out: &mut Output,
) -> Result<(), AllocError>
    requires ready { IsReady over.now levels searcher.old work.old }
    requires open_ { AreOpen over.now levels around.now.stack.now }
    requires inside { All (IsInside (length over.now.text.now)) takens.now }
    ensures kept { IsKept searcher.old searcher.new work.old work.new }
    ensures told { OnOk result (record { out = out.new; locals = locals.new }
        ≡ takens_told (telling_of over.now levels around.now) takens.now (record { out = out.old; locals = locals.old })) }
{
    for taken in takens {
        if around.to < taken.place.from {
            return Ok(());
        }
        tell_taken(over, searcher, work, levels, around, taken, locals, out)?;
    }
    Ok(())
}

/// Tells the captures of a match.
#[cycle(run)]
fn tell_takens(
    over: &Over<'_>,
    searcher: &mut Searcher,
    work: &mut Work,
    levels: u32,
    around: &Around<'_>,
    takens: &[Taken],
    out: &mut Output,
) -> Result<(), AllocError>
    requires ready { IsReady over.now levels searcher.old work.old }
    requires open_ { AreOpen over.now levels around.now.stack.now }
    requires inside { All (IsInside (length over.now.text.now)) takens.now }
    ensures kept { IsKept searcher.old searcher.new work.old work.new }
    ensures told { OnOk result (out.new ≡ all_told (telling_of over.now levels around.now) takens.now out.old) }
{
    let mut locals = Locals::new(over.alloc);
    tell_all(
        over,
        searcher,
        work,
        levels,
        around,
        takens,
        &mut locals,
        out,
    )?;
    locals.close_all(out)
}

/// Tells a match: the scopes of before up to its start, its captures, and its own scopes up to its end.
#[cycle(run)]
pub fn tell_match(
    over: &Over<'_>,
    searcher: &mut Searcher,
    work: &mut Work,
    levels: u32,
    before: &Scopes,
    scopes: &Scopes,
    m: Match,
    takens: &[Taken],
    state: &mut RunState,
) -> Result<(), AllocError>
    requires ready { IsReady over.now levels searcher.old work.old }
    requires open_ { AreOpen over.now levels state.old.stack }
    requires inside { All (IsInside (length over.now.text.now)) takens.now }
    ensures kept { IsKept searcher.old searcher.new work.old work.new }
    ensures told { OnOk result ((hit : Captures) (entries : List RuleCapture) →
        takens.now ≡ takens_of over.now.text.now hit entries →
        state.new ≡ record state.old {
          out = told_match (run_of over.now levels) state.old before.now scopes.now
              (matched_of m hit) (map entry_of entries);
        }) }
{
    state.out.put(before, m.from)?;
    let around = Around {
        stack: &state.stack,
        first: state.first,
        scopes,
        to: m.to,
    };
    tell_takens(
        over,
        searcher,
        work,
        levels,
        &around,
        takens,
        &mut state.out,
    )?;
    state.out.put(scopes, m.to)
}

/// Goes on behind a match.
fn goes_on(m: Match, state: &mut RunState) -> Then
    ensures { turned_of result state.new ≡ GoesOn (advanced m.to state.old) }
{
    state.advance(m.to);
    Then::GoesOn
}

/// Ends a turn behind the end of the top frame, which is told.
fn after_end(over: &Over<'_>, m: Match, state: &mut RunState) -> Result<Then, AllocError>
    requires { length over.now.text.now < 2 ^ 31 }
    ensures { IfOk result (λ then. (levels : ℕ) (hit : Captures) → turned_of then state.new
        ≡ ended (is_here (matched_of m hit) state.old && is_at state.old.place state.old.stack.top.enter)
        (run_of over.now levels) (matched_of m hit) state.old) }
{
    let top = state.stack.top();
    if m.to == state.place && top.enter == Some(state.place) {
        return rest_of(over, state);
    }
    let anchor = top.anchor;
    state.pop()?;
    state.anchor = anchor;
    Ok(goes_on(m, state))
}

/// The end of the top frame is found.
#[cycle(run)]
fn end_found(
    over: &Over<'_>,
    searcher: &mut Searcher,
    work: &mut Work,
    levels: u32,
    m: Match,
    state: &mut RunState,
) -> Result<Then, AllocError>
    requires ready { IsReady over.now levels searcher.old work.old }
    requires running { IsRunning (run_of over.now levels) state.old }
    requires few { depth state.old.stack ≤ few_at levels }
    requires part { IsPartFrom state.old.place (length over.now.text.now) work.old.hit m }
    requires there { state.old.stack.top.rule < length over.now.table.now.rules }
    ensures kept { IsKept searcher.old searcher.new work.old work.new }
    ensures turned { IfOk result (λ then. turned_of then state.new
        ≡ end_found (run_of over.now levels) (matched_of m work.old.hit) state.old) }
{
    let top = state.stack.top();
    let entries = &over.table.rule(top.rule).finish_captures;
    let takens = takens_of(over.alloc, entries, over.text, work)?;
    let before = top.content.copy()?;
    let scopes = top.name.copy()?;
    let frame = with_content(top, top.name.copy()?)?;
    state.set_top(over.alloc, frame)?;
    tell_match(
        over,
        searcher,
        work,
        levels,
        &before,
        &scopes,
        m,
        takens.as_slice(),
        state,
    )?;
    after_end(over, m, state)
}

/// A frame with other content scopes.
fn with_content(frame: &Frame, content: Scopes) -> Result<Frame, AllocError>
    ensures { IfOk result (λ f. f ≡ record frame.now { content = content }) }
{
    Ok(Frame {
        rule: frame.rule,
        enter: frame.enter,
        anchor: frame.anchor,
        took_end: frame.took_end,
        end: frame.end.copy()?,
        name: frame.name.copy()?,
        content,
    })
}

/// Ends a turn behind a match, which is told. One that takes nothing pops a frame.
fn after_match(over: &Over<'_>, m: Match, state: &mut RunState) -> Result<Then, AllocError>
    requires { length over.now.text.now < 2 ^ 31 }
    ensures { IfOk result (λ then. (levels : ℕ) (hit : Captures) → turned_of then state.new
        ≡ rest_where (is_here (matched_of m hit) state.old) (run_of over.now levels) (matched_of m hit)
        (popped_where (is_here (matched_of m hit) state.old) state.old)) }
{
    if m.to == state.place {
        state.pop()?;
        return rest_of(over, state);
    }
    Ok(goes_on(m, state))
}

/// A match rule is found.
#[cycle(run)]
fn match_found(
    over: &Over<'_>,
    searcher: &mut Searcher,
    work: &mut Work,
    levels: u32,
    rule: &Rule,
    m: Match,
    state: &mut RunState,
) -> Result<Then, AllocError>
    requires ready { IsReady over.now levels searcher.old work.old }
    requires running { IsRunning (run_of over.now levels) state.old }
    requires few { depth state.old.stack ≤ few_at levels }
    requires part { IsPartFrom state.old.place (length over.now.text.now) work.old.hit m }
    ensures kept { IsKept searcher.old searcher.new work.old work.new }
    ensures turned { IfOk result (λ then. turned_of then state.new
        ≡ match_found (run_of over.now levels) (rule_of rule.now) (matched_of m work.old.hit) state.old) }
{
    let before = state.stack.top().content.copy()?;
    let scopes = pushed(over.alloc, &before, &rule.name, over.text, work)?;
    let takens = takens_of(over.alloc, &rule.start_captures, over.text, work)?;
    tell_match(
        over,
        searcher,
        work,
        levels,
        &before,
        &scopes,
        m,
        takens.as_slice(),
        state,
    )?;
    after_match(over, m, state)
}

/// The text of the end that a frame keeps.
fn kept_end(over: &Over<'_>, slot: &Slot, work: &Work) -> Result<EndText, AllocError>
    requires { (n : ℕ) → IfSome (capture_of work.now.hit n) (IsPart (length over.now.text.now)) }
    ensures { IfOk result (λ end. (levels : ℕ) → end
        ≡ kept_end (run_of over.now levels) (record { of = OfEnd; from = 0; to = 0; captures = work.now.hit }) (slot_of slot.now)) }
{
    match slot {
        Slot::Later { text, groups: _ } => {
            let text = end_text(over.alloc, text.text(), over.text, work)?;
            EndText::of(over.alloc, text.text())
        }
        _ => Ok(EndText::none()),
    }
}

/// Whether one of the frames, going down as long as they were entered at a place, has a rule.
fn is_entered(stack: &Stack, place: u32, rule: RuleId) -> bool
    ensures { result ≡ is_entered place rule.0 (frames stack.now) }
{
    let mut at = stack;
    loop {
        let frame = at.top();
        if frame.enter != Some(place) {
            return false;
        }
        if frame.rule == rule {
            return true;
        }
        match at.below() {
            None => return false,
            Some(below) => at = below,
        }
    }
}

/// Pushes the frame of a begin, whose content scopes are so far those of the whole.
fn push_begin(
    over: &Over<'_>,
    id: RuleId,
    scopes: &Scopes,
    m: Match,
    state: &mut RunState,
) -> Result<(), AllocError>
    requires { depth state.old.stack < 2000 }
    ensures { OnOk result ((levels : ℕ) (hit : Captures) → state.new ≡ record state.old {
      stack = on (new_frame (run_of over.now levels) id.0 scopes.now (matched_of m hit) state.old) state.old.stack;
    }) }
{
    let frame = Frame {
        rule: id,
        enter: Some(state.place),
        anchor: state.anchor,
        took_end: m.to as usize == over.text.len(),
        end: EndText::none(),
        name: scopes.copy()?,
        content: scopes.copy()?,
    };
    state.push(over.alloc, frame)
}

/// Drops the frame of a begin, since there are as many as there may be.
fn after_full(over: &Over<'_>, m: Match, state: &mut RunState) -> Result<Then, AllocError>
    requires { length over.now.text.now < 2 ^ 31 }
    ensures { IfOk result (λ then. (levels number : ℕ) (rule : LineRule) (hit : Captures) → turned_of then state.new
        ≡ begun true (run_of over.now levels) number rule (matched_of m hit) state.old) }
{
    let is_here = m.to == state.place;
    state.pop()?;
    if is_here {
        return rest_of(over, state);
    }
    Ok(goes_on(m, state))
}

/// The frame of a begin with the scopes of its content and the text of its end.
fn settled(frame: &Frame, content: Scopes, end: EndText) -> Result<Frame, AllocError>
    ensures { IfOk result (λ f. f ≡ record frame.now { content = content; end_text = end }) }
{
    Ok(Frame {
        rule: frame.rule,
        enter: frame.enter,
        anchor: frame.anchor,
        took_end: frame.took_end,
        end,
        name: frame.name.copy()?,
        content,
    })
}

/// Whether a begin that takes nothing stands on a frame of its own rule that was entered here too.
fn is_stuck(state: &RunState, id: RuleId, m: Match) -> bool
    ensures { (hit : Captures) → result ≡ is_stuck id.0 (matched_of m hit) state.now }
{
    if m.to != state.place {
        return false;
    }
    match state.stack.below() {
        None => false,
        Some(below) => is_entered(below, state.place, id),
    }
}

/// Ends a turn behind a begin, which is told.
fn after_begin(
    over: &Over<'_>,
    id: RuleId,
    content: Scopes,
    end: EndText,
    m: Match,
    state: &mut RunState,
) -> Result<Then, AllocError>
    requires text { length over.now.text.now < 2 ^ 31 }
    requires few { depth state.old.stack ≤ 2000 }
    ensures { IfOk result (λ then. (levels : ℕ) (rule : LineRule) (hit : Captures) →
        content ≡ names (run_of over.now levels) (matched_of m hit) state.old.stack.top.content rule.content →
        end ≡ kept_end (run_of over.now levels) (matched_of m hit) rule.finish →
        turned_of then state.new ≡ begun false (run_of over.now levels) id.0 rule (matched_of m hit) state.old) }
{
    let is_stuck = is_stuck(state, id, m);
    let frame = settled(state.stack.top(), content, end)?;
    state.set_top(over.alloc, frame)?;
    state.anchor = Some(m.to);
    if is_stuck {
        state.pop()?;
        return rest_of(over, state);
    }
    Ok(goes_on(m, state))
}

/// A begin rule is found.
#[cycle(run)]
fn begin_found(
    over: &Over<'_>,
    searcher: &mut Searcher,
    work: &mut Work,
    levels: u32,
    id: RuleId,
    rule: &Rule,
    m: Match,
    state: &mut RunState,
) -> Result<Then, AllocError>
    requires ready { IsReady over.now levels searcher.old work.old }
    requires running { IsRunning (run_of over.now levels) state.old }
    requires few { depth state.old.stack ≤ few_at levels }
    requires part { IsPartFrom state.old.place (length over.now.text.now) work.old.hit m }
    ensures kept { IsKept searcher.old searcher.new work.old work.new }
    ensures turned { IfOk result (λ then. turned_of then state.new
        ≡ begin_found (run_of over.now levels) id.0 (rule_of rule.now) (matched_of m work.old.hit) state.old) }
{
    let before = state.stack.top().content.copy()?;
    let scopes = pushed(over.alloc, &before, &rule.name, over.text, work)?;
    let content = pushed(over.alloc, &scopes, &rule.content, over.text, work)?;
    let end = kept_end(over, &rule.finish, work)?;
    let takens = takens_of(over.alloc, &rule.start_captures, over.text, work)?;
    let is_full = state.stack.depth() >= MOST_OPEN;
    push_begin(over, id, &scopes, m, state)?;
    tell_match(
        over,
        searcher,
        work,
        levels,
        &before,
        &scopes,
        m,
        takens.as_slice(),
        state,
    )?;
    if is_full {
        return after_full(over, m, state);
    }
    after_begin(over, id, content, end, m, state)
}

/// A turn: what the search finds, and what is done with it.
#[cycle(run)]
fn turn(
    over: &Over<'_>,
    searcher: &mut Searcher,
    work: &mut Work,
    levels: u32,
    state: &mut RunState,
) -> Result<Then, AllocError>
    requires ready { IsReady over.now levels searcher.old work.old }
    requires running { IsRunning (run_of over.now levels) state.old }
    requires few { depth state.old.stack ≤ few_at levels }
    ensures kept { IsKept searcher.old searcher.new work.old work.new }
    ensures turned { IfOk result (λ then. turned_of then state.new
        ≡ turn (run_of over.now levels) state.old) }
{
    let flags = state.flags();
    match searcher.search(work, state.stack.top(), over.text, state.place, flags)? {
        Find::Nothing => rest_of(over, state),
        Find::Spent => {
            state.out.set_spent();
            rest_of(over, state)
        }
        Find::At(m) => match m.of {
            Of::End => end_found(over, searcher, work, levels, m, state),
            Of::Rule(id) => rule_found(over, searcher, work, levels, id, m, state),
        },
    }
}

/// Puts the content scopes of the top frame to the text's end, and stops.
fn rest_of(over: &Over<'_>, state: &mut RunState) -> Result<Then, AllocError>
    requires { length over.now.text.now < 2 ^ 31 }
    ensures { IfOk result (λ then. turned_of then state.new ≡ rest over.now.text.now state.old) }
{
    state.rest(over.text)?;
    Ok(Then::Stops)
}

/// A rule's pattern is found.
#[cycle(run)]
fn rule_found(
    over: &Over<'_>,
    searcher: &mut Searcher,
    work: &mut Work,
    levels: u32,
    id: RuleId,
    m: Match,
    state: &mut RunState,
) -> Result<Then, AllocError>
    requires ready { IsReady over.now levels searcher.old work.old }
    requires running { IsRunning (run_of over.now levels) state.old }
    requires few { depth state.old.stack ≤ few_at levels }
    requires part { IsPartFrom state.old.place (length over.now.text.now) work.old.hit m }
    requires there { id.0 < length over.now.table.now.rules }
    ensures kept { IsKept searcher.old searcher.new work.old work.new }
    ensures turned { IfOk result (λ then. turned_of then state.new
        ≡ rule_found (rule_at (machine_over over.now) id.0).kind (run_of over.now levels) id.0 (matched_of m work.old.hit)
        state.old) }
{
    let rule = over.table.rule(id);
    match rule.kind {
        RuleKind::Match => match_found(over, searcher, work, levels, rule, m, state),
        _ => begin_found(over, searcher, work, levels, id, rule, m, state),
    }
}

/// The run over a text, until a turn stops it.
#[cycle(run)]
pub fn run(
    over: &Over<'_>,
    searcher: &mut Searcher,
    work: &mut Work,
    levels: u32,
    state: &mut RunState,
) -> Result<(), AllocError>
    requires ready { IsReady over.now levels searcher.old work.old }
    requires running { IsRunning (run_of over.now levels) state.old }
    requires few { depth state.old.stack ≤ few_at levels }
    ensures kept { IsKept searcher.old searcher.new work.old work.new }
    ensures runs { OnOk result (state.new ≡ run_from (machine_over over.now) (inside_by (machine_over over.now) levels) over.now.text.now
        state.old) }
{
    loop {
        match turn(over, searcher, work, levels, state)? {
            Then::GoesOn => {}
            Then::Stops => return Ok(()),
        }
    }
}
