//! An object that gives each line as one token without scopes.

ghost use Rattle.std.specs.Prelude.{◌≡◌, IfOk};
ghost use Rattle.scope_defs.specs.Frames.{Start};

use line_runs::{Limits, LineRuns, LineTokens};
use line_text::Line;
use onig_match::Work;
use scope_names::Scopes;
use scope_stack::{State, Token, TokenRows};
use std::alloc::{AllocError, Global};
use std::marker::Model;
use std::sync::ledger::Ledger;
use step_count::Steps;

/// Gives each line as one token without scopes, and leaves the open rules as they are.
#[derive(Drop)]
pub struct Whole {
    alloc: Global,
    limits: Limits,
    start: State,
    runs: u64,
}

impl Model for Whole {
    ghost use Rattle.line_runs_tests.specs.Wholes.{WholeState};

    ghost Value = { WholeState };

    ghost view = { λ w. record { limits = w.limits; start = w.start; runs = w.runs } };
}

impl Whole {
    pub fn new(alloc: Global, limits: Limits, start: State) -> Whole
        ensures { result ≡ record { limits = limits; start = start; runs = 0 } }
    {
        Whole {
            alloc,
            limits,
            start,
            runs: 0,
        }
    }
}

impl LineRuns for Whole {
    ghost use Rattle.line_runs_tests.specs.Wholes.{told};

    ghost told = { told };

    ghost count = { λ w. w.runs };

    fn start(&self) -> &State {
        &self.start
    }

    fn groups(&self) -> u32 {
        0
    }

    fn limits(&self) -> Limits {
        self.limits
    }

    fn tokenise<L: Ledger>(
        &mut self,
        work: &mut Work,
        start: &State,
        line: &Line,
        steps: &mut Steps<L>,
    ) -> Result<LineTokens, AllocError> {
        steps.tick();
        self.runs = self.runs.saturating_add(1);
        let _room = work.room();
        let mut tokens = TokenRows::new(self.alloc);
        tokens.push(Token {
            from: 0,
            to: line.chars().len() as u32,
            scopes: Scopes::empty(),
        })?;
        let end = State::new(start.stack().copy()?, false);
        Ok(LineTokens::new(tokens, end, false))
    }
}
