//! What a line gives: its tokens, the next line's start, and whether an attempt was spent.

ghost use Rattle.std.specs.Prelude.{◌≡◌};

use scope_stack::{State, TokenRows};
use std::marker::Model;

/// What a line gives: its tokens, what the next line starts from, and whether an attempt was spent.
#[derive(Drop)]
pub struct LineTokens {
    tokens: TokenRows,
    end: State,
    stopped: bool,
}

impl Model for LineTokens {
    ghost use Rattle.line_defs.specs.Line.{LineResult};

    ghost Value = { LineResult };

    ghost view = { λ line. record { tokens = line.tokens; end = line.end; stopped = line.stopped } };
}

impl LineTokens {
    pub fn new(tokens: TokenRows, end: State, stopped: bool) -> LineTokens
        ensures { result ≡ record { tokens = tokens; end = end; stopped = stopped } }
    {
        LineTokens {
            tokens,
            end,
            stopped,
        }
    }

    pub fn tokens(&self) -> &TokenRows
        ensures { result.now ≡ self.now.tokens }
    {
        &self.tokens
    }

    pub fn end(&self) -> &State
        ensures { result.now ≡ self.now.end }
    {
        &self.end
    }

    pub fn stopped(&self) -> bool
        ensures { result ≡ self.now.stopped }
    {
        self.stopped
    }
}
