//! The tokens told so far, and whether an attempt was spent.

ghost use Rattle.std.specs.Prelude.{◌≡◌, OnOk};
ghost use Rattle.line_defs.specs.Tokens.{nothing_told, put, spent};

use scope_names::Scopes;
use scope_stack::{Token, TokenRows};
use std::alloc::{AllocError, Global};
use std::marker::Model;

/// What is told so far: tokens, where the last one ends, and whether an attempt was spent.
#[derive(Drop)]
pub struct Output {
    tokens: TokenRows,
    end: u32,
    stopped: bool,
}

impl Model for Output {
    ghost use Rattle.line_defs.specs.Tokens.{Output as Told};

    ghost Value = { Told };

    ghost view = { λ out. record { tokens = out.tokens; end = out.end; stopped = out.stopped } };
}

impl Output {
    pub fn new(alloc: Global) -> Output
        ensures { result ≡ nothing_told }
    {
        Output {
            tokens: TokenRows::new(alloc),
            end: 0,
            stopped: false,
        }
    }

    /// Puts scopes to a place: a token from the last one's end to there, where the place lies behind it.
    pub fn put(&mut self, scopes: &Scopes, place: u32) -> Result<(), AllocError>
        ensures { OnOk result (self.new ≡ put self.old scopes.now place) }
    {
        if self.end < place {
            let token = Token {
                from: self.end,
                to: place,
                scopes: scopes.copy()?,
            };
            self.tokens.push(token)?;
            self.end = place;
        }
        Ok(())
    }

    /// Notes that an attempt was spent.
    pub fn set_spent(&mut self)
        ensures { self.new ≡ spent self.old }
    {
        self.stopped = true;
    }

    pub fn tokens(&self) -> &TokenRows
        ensures { result.now ≡ self.now.tokens }
    {
        &self.tokens
    }

    /// Whether an attempt was spent.
    pub fn stopped(&self) -> bool
        ensures { result ≡ self.now.stopped }
    {
        self.stopped
    }
}
