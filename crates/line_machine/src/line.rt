//! The result of a line: the while pass, the run behind it, and the tokens within the line.

ghost use Rattle.std.specs.Prelude.{◌≡◌, ℕ, ◌+◌, ◌<◌, ◌≤◌, ◌^◌, List, length, map, IfOk, OnOk};
ghost use Rattle.line_defs.specs.declared.limits.TheConstants.{MOST_LEVELS};
ghost use Rattle.line_defs.specs.Tokens.{whole, within_line};
ghost use Rattle.line_defs.specs.Line.{at_front, line_run, result_of, long_line, with_line_feed};
ghost use Rattle.line_laws.specs.Starts.{IsFit};
ghost use Rattle.line_laws.proofs.Lines.{MayRun};
ghost use Rattle.line_machine.specs.Cut.{cut_at};
ghost use Rattle.line_turns.specs.Over.{run_of, machine_over, IsReady, IsKept};

use crate::forgotten::forgotten_stack;
use crate::while_pass::{Passed, pass};
use line_defs::MOST_LEVELS;
use line_output::Output;
use line_runs::LineTokens;
use line_search::Searcher;
use line_turns::{Over, RunState, run};
use onig_match::Work;
use scope_names::Scopes;
use scope_stack::{Stack, State, Token, TokenRows};
use std::alloc::{AllocError, Global};

/// What a line's run begins with.
fn front_of(alloc: Global, start: &State) -> Result<RunState, AllocError>
    ensures { IfOk result (λ state. state ≡ at_front start.now) }
{
    let anchor = if start.stack().top().took_end {
        Some(0)
    } else {
        None
    };
    Ok(RunState {
        place: 0,
        anchor,
        first: start.first(),
        stack: forgotten_stack(alloc, start.stack())?,
        out: Output::new(alloc),
    })
}

/// The while pass, and the run behind it.
fn run_line(
    over: &Over<'_>,
    searcher: &mut Searcher,
    work: &mut Work,
    state: &mut RunState,
) -> Result<(), AllocError>
    requires ready { IsReady over.now MOST_LEVELS searcher.old work.old }
    requires may { MayRun (run_of over.now MOST_LEVELS) state.old }
    ensures kept { IsKept searcher.old searcher.new work.old work.new }
    ensures ran { OnOk result (state.new ≡ line_run (machine_over over.now) over.now.text.now state.old) }
{
    let stack = state.stack.copy()?;
    match pass(over, searcher, work, &stack, state)? {
        Passed::Stops => Ok(()),
        Passed::Next => run(over, searcher, work, MOST_LEVELS, state),
        Passed::Ends => run(over, searcher, work, MOST_LEVELS, state),
    }
}

/// One token of a whole line.
fn whole_line(alloc: Global, scopes: &Scopes, chars: u32) -> Result<TokenRows, AllocError>
    ensures { IfOk result (λ tokens. tokens ≡ whole chars scopes.now) }
{
    let mut tokens = TokenRows::new(alloc);
    tokens.push(Token {
        from: 0,
        to: chars,
        scopes: scopes.copy()?,
    })?;
    Ok(tokens)
}

/// A token that ends with the line at the latest.
fn cut_token(token: &Token, chars: u32) -> Result<Token, AllocError>
    ensures { IfOk result (λ t. t ≡ cut_at chars token.now) }
{
    Ok(Token {
        from: token.from,
        to: token.to.min(chars),
        scopes: token.scopes.copy()?,
    })
}

/// The same of tokens.
fn cut_tokens(alloc: Global, tokens: &[Token], chars: u32) -> Result<TokenRows, AllocError>
    ensures { IfOk result (λ all. all ≡ map (cut_at chars) tokens.now) }
{
    let mut all = TokenRows::new(alloc);
    for token in tokens {
        all.push(cut_token(token, chars)?)?;
    }
    Ok(all)
}

/// The tokens within a line of so many characters, whose text has a line feed at its end.
fn tokens_within(alloc: Global, tokens: &[Token], chars: u32) -> Result<TokenRows, AllocError>
    ensures { IfOk result (λ all. all ≡ within_line chars tokens.now) }
{
    let Some((last, front)) = tokens.split_last() else {
        return Ok(TokenRows::new(alloc));
    };
    let mut all = cut_tokens(alloc, front, chars)?;
    if last.from == chars {
        return Ok(all);
    }
    all.push(cut_token(last, chars)?)?;
    Ok(all)
}

/// What a run over a line of so many characters gives.
fn result_after(alloc: Global, state: &RunState, chars: u32) -> Result<LineTokens, AllocError>
    ensures { IfOk result (λ r. (line : List ℕ) → chars ≡ length line → r ≡ result_of line state.now) }
{
    let within = tokens_within(alloc, state.out.tokens().as_slice(), chars)?;
    let end = State::new(forgotten_stack(alloc, &state.stack)?, false);
    if within.as_slice().is_empty() {
        let tokens = whole_line(alloc, &state.stack.top().content, chars)?;
        return Ok(LineTokens::new(tokens, end, state.out.stopped()));
    }
    Ok(LineTokens::new(within, end, state.out.stopped()))
}

/// A line that isn't run: one token, and the frames as they are.
pub fn unrun_line(alloc: Global, start: &State, chars: u32) -> Result<LineTokens, AllocError>
    ensures { IfOk result (λ r. (line : List ℕ) → chars ≡ length line → r ≡ long_line start.now line) }
{
    let stack = start.stack();
    let tokens = whole_line(alloc, &stack.top().content, chars)?;
    let end = State::new(forgotten_stack(alloc, stack)?, false);
    Ok(LineTokens::new(tokens, end, false))
}

/// A line whose text, with a line feed at its end, is that of the run.
pub fn ran_line(
    over: &Over<'_>,
    searcher: &mut Searcher,
    work: &mut Work,
    start: &State,
) -> Result<LineTokens, AllocError>
    requires ready { IsReady over.now MOST_LEVELS searcher.old work.old }
    requires fit { IsFit (machine_over over.now) start.now }
    requires some { 0 < length over.now.text.now }
    ensures kept { IsKept searcher.old searcher.new work.old work.new }
    ensures gives { IfOk result (λ r. (line : List ℕ) → over.now.text.now ≡ with_line_feed line →
        r ≡ result_of line (line_run (machine_over over.now) (with_line_feed line) (at_front start.now))) }
{
    let mut state = front_of(over.alloc, start)?;
    run_line(over, searcher, work, &mut state)?;
    result_after(over.alloc, &state, over.text.len() as u32 - 1)
}
