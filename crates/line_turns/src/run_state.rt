//! The state of a run over a text.

ghost use Rattle.std.specs.Prelude.{◌≡◌, ◌<◌, ◌≤◌, ◌^◌, [], length, OnOk, IfOk, Some};
ghost use Rattle.scope_defs.specs.Frames.{on, depth, frames};
ghost use Rattle.line_defs.specs.Frames.{popped};
ghost use Rattle.line_defs.specs.Tokens.{spent};
ghost use Rattle.line_defs.specs.Runs.{Stops, rest, advanced};
ghost use Rattle.line_defs.specs.Search.{mark};

use line_output::Output;
use pattern_defs::Flags;
use scope_stack::{Frame, Stack};
use std::alloc::{AllocError, Global};
use std::marker::Model;

/// The state of a run over a text.
#[derive(Drop)]
pub struct RunState {
    pub place: u32,
    pub anchor: Option<u32>,
    /// Whether it stands at the start of the first line.
    pub first: bool,
    pub stack: Stack,
    pub out: Output,
}

impl Model for RunState {
    ghost use Rattle.line_defs.specs.Runs.{State};

    ghost Value = { State };

    ghost view = { λ s. record { place = s.place; anchor = s.anchor; first = s.first; stack = s.stack; out = s.out } };
}

/// A stack with another frame on top.
fn with_top(alloc: Global, stack: &Stack, frame: Frame) -> Result<Stack, AllocError>
    requires { depth stack.now ≤ 2000 }
    ensures { IfOk result (λ s. s ≡ record stack.now { top = frame }) }
{
    match stack.below() {
        Some(below) => below.push(alloc, frame),
        None => Stack::root(alloc, frame),
    }
}

impl RunState {
    /// What the anchors of a search know.
    pub fn flags(&self) -> Flags
        ensures { result ≡ record { first = self.now.first; anchor = mark self.now } }
    {
        let anchor = match self.anchor {
            Some(at) if at == self.place => Some(self.place),
            _ => None,
        };
        Flags {
            first: self.first,
            anchor,
        }
    }

    /// Puts the content scopes of the top frame to the text's end.
    pub fn rest(&mut self, text: &[char]) -> Result<(), AllocError>
        requires { length text.now < 2 ^ 31 }
        ensures { OnOk result (Stops self.new ≡ rest text.now self.old) }
    {
        self.out.put(&self.stack.top().content, text.len() as u32)
    }

    /// Goes on behind a match that takes something.
    pub fn advance(&mut self, to: u32)
        ensures { self.new ≡ advanced to self.old }
    {
        if self.place < to {
            self.place = to;
            self.first = false;
        }
    }

    /// Pops the top frame, unless it is the root.
    pub fn pop(&mut self) -> Result<(), AllocError>
        ensures { OnOk result (self.new ≡ record self.old { stack = popped self.old.stack }) }
    {
        let below = match self.stack.below() {
            None => return Ok(()),
            Some(below) => below.copy()?,
        };
        self.stack = below;
        Ok(())
    }

    /// Puts another frame in the place of the top one.
    pub fn set_top(&mut self, alloc: Global, frame: Frame) -> Result<(), AllocError>
        requires { depth self.old.stack ≤ 2000 }
        ensures { OnOk result (self.new ≡ record self.old { stack = record self.old.stack { top = frame } }) }
    {
        self.stack = with_top(alloc, &self.stack, frame)?;
        Ok(())
    }

    /// Pushes a frame.
    pub fn push(&mut self, alloc: Global, frame: Frame) -> Result<(), AllocError>
        requires { depth self.old.stack < 2000 }
        ensures { OnOk result (self.new ≡ record self.old { stack = on frame self.old.stack }) }
    {
        self.stack = self.stack.push(alloc, frame)?;
        Ok(())
    }
}
