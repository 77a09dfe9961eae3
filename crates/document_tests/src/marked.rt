//! A source of tokens for tests: each line is one token, and a leading # opens or closes a comment.

ghost use Rattle.std.specs.Prelude.{◌≡◌, true, false, IfOk};
ghost use Rattle.document_tests.specs.Marked.{frame_where, is_mark, open_behind, scopes_where, start_where};

use line_runs::{Limits, LineRuns, LineTokens};
use line_text::Line;
use onig_match::Work;
use scope_names::Scopes;
use scope_stack::{EndText, Frame, RuleId, Stack, State, Token, TokenRows};
use std::alloc::{AllocError, Global};
use std::marker::Model;
use std::sync::ledger::Ledger;
use step_count::Steps;

/// Gives each line as one token. A line that begins with `#` is a comment, and opens one for the lines behind it, or
/// closes the one that is open.
#[derive(Drop)]
pub struct Marked {
    alloc: Global,
    limits: Limits,
    start: State,
    runs: u64,
}

impl Model for Marked {
    ghost use Rattle.document_tests.specs.Marked.{MarkedState};

    ghost Value = { MarkedState };

    ghost view = { λ m. record { limits = m.limits; start = m.start; runs = m.runs } };
}

/// The frame that says whether a comment is open.
fn frame_where(is_open: bool) -> Frame
    ensures { result ≡ frame_where is_open }
{
    Frame {
        rule: RuleId(0),
        enter: None,
        anchor: None,
        took_end: is_open,
        end: EndText::none(),
        name: Scopes::empty(),
        content: Scopes::empty(),
    }
}

fn start_where(alloc: Global, first: bool, is_open: bool) -> Result<State, AllocError>
    ensures { IfOk result (λ start. start ≡ start_where first is_open) }
{
    Ok(State::new(Stack::root(alloc, frame_where(is_open))?, first))
}

fn scopes_where(alloc: Global, is_comment: bool) -> Result<Scopes, AllocError>
    ensures { IfOk result (λ scopes. scopes ≡ scopes_where is_comment) }
{
    if is_comment {
        Scopes::empty().push(alloc, "comment")
    } else {
        Ok(Scopes::empty())
    }
}

fn is_mark(line: &[char]) -> bool
    ensures { result ≡ is_mark line.now }
{
    match line {
        [] => false,
        [c, ..] => *c == '#',
    }
}

fn open_behind(is_open: bool, is_mark: bool) -> bool
    ensures { result ≡ open_behind is_open is_mark }
{
    if is_mark { !is_open } else { is_open }
}

impl Marked {
    pub fn new(alloc: Global, limits: Limits) -> Result<Marked, AllocError>
        ensures { IfOk result (λ m. m ≡ record { limits = limits; start = start_where true false; runs = 0 }) }
    {
        Ok(Marked {
            alloc,
            limits,
            start: start_where(alloc, true, false)?,
            runs: 0,
        })
    }
}

impl LineRuns for Marked {
    ghost use Rattle.document_tests.specs.Marked.{told};

    ghost told = { told };

    ghost count = { λ m. m.runs };

    fn start(&self) -> &State {
        &self.start
    }

    fn groups(&self) -> u32 {
        0
    }

    fn limits(&self) -> Limits {
        self.limits
    }

    fn tokenise<L: Ledger>(
        &mut self,
        work: &mut Work,
        start: &State,
        line: &Line,
        steps: &mut Steps<L>,
    ) -> Result<LineTokens, AllocError> {
        steps.tick();
        self.runs = self.runs.saturating_add(1);
        let _room = work.room();
        let is_open = start.stack().top().took_end;
        let is_mark = is_mark(line.chars());
        let mut tokens = TokenRows::new(self.alloc);
        tokens.push(Token {
            from: 0,
            to: line.chars().len() as u32,
            scopes: scopes_where(self.alloc, is_open || is_mark)?,
        })?;
        let end = start_where(self.alloc, false, open_behind(is_open, is_mark))?;
        Ok(LineTokens::new(tokens, end, false))
    }
}
