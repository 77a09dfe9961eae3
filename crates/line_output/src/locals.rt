//! The captures of a match that are open, and their scopes.

ghost use Rattle.std.specs.Prelude.{◌≡◌, [], ◌∷◌, OnOk};
ghost use Rattle.line_defs.specs.Captures.{closed_all, innermost, closed_to};
ghost use Rattle.line_defs.specs.Tokens.{put};

use crate::output::Output;
use scope_names::Scopes;
use std::alloc::{AllocError, Global};
use std::marker::Model;

/// The scopes of a capture that is open up to a place.
#[derive(Drop)]
struct Local {
    scopes: Scopes,
    end: u32,
}

/// The captures of a match that are open.
#[derive(Drop)]
pub struct Locals {
    /// The outermost first.
    locals: Vec<Local>,
}

impl Model for Locals {
    ghost use Rattle.std.specs.Prelude.{List};
    ghost use Rattle.line_defs.specs.Captures.{Local as OpenCapture};
    ghost use Rattle.line_output.specs.Locals.{innermost_first};

    ghost Value = { List OpenCapture };

    ghost view = { λ l. innermost_first l.locals.items };
}

impl Locals {
    pub fn new(alloc: Global) -> Locals
        ensures { result ≡ [] }
    {
        Locals {
            locals: Vec::new(alloc),
        }
    }

    /// Opens a capture in those that are open.
    pub fn open(&mut self, scopes: Scopes, end: u32) -> Result<(), AllocError>
        ensures { OnOk result (self.new ≡ record { scopes = scopes; end = end } ∷ self.old) }
    {
        self.locals.push(Local { scopes, end })?;
        Ok(())
    }

    /// The scopes of the innermost, or those around all.
    pub fn innermost<'a>(&'a self, around: &'a Scopes) -> &'a Scopes
        ensures { result.now ≡ innermost around.now self.now }
    {
        match self.locals.last() {
            Some(local) => &local.scopes,
            None => around,
        }
    }

    /// Closes the captures that end at or before a place.
    pub fn close_to(&mut self, out: &mut Output, place: u32) -> Result<(), AllocError>
        ensures { OnOk result (record { out = out.new; locals = self.new } ≡ closed_to place self.old out.old) }
    {
        while let Some(local) = self.locals.pop() {
            if local.end > place {
                self.locals.push(local)?;
                return Ok(());
            }
            out.put(&local.scopes, local.end)?;
        }
        Ok(())
    }

    /// Closes all.
    pub fn close_all(&mut self, out: &mut Output) -> Result<(), AllocError>
        ensures { OnOk result (out.new ≡ closed_all self.old out.old) }
    {
        while let Some(local) = self.locals.pop() {
            out.put(&local.scopes, local.end)?;
        }
        Ok(())
    }
}
