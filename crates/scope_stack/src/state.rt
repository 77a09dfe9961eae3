//! The state at a line's start or end: its stack of frames, and whether the line is the text's first.

ghost use Rattle.std.specs.Prelude.{◌≡◌, ◌↔◌, IfOk, IsTrue};
ghost use Rattle.scope_defs.specs.Frames.{bare};

use crate::stack::Stack;
use std::alloc::AllocError;
use std::marker::Model;

/// Where a run over a line begins or ends: whether the line is the text's first, and the open rules.
#[derive(Drop)]
pub struct State {
    stack: Stack,
    first: bool,
}

impl Model for State {
    ghost use Rattle.scope_defs.specs.Frames.{Start};

    ghost Value = { Start };

    ghost view = { λ state. record { first = state.first; stack = state.stack } };
}

impl State {
    pub fn new(stack: Stack, first: bool) -> State
        ensures { result ≡ record { first = first; stack = stack } }
    {
        State { stack, first }
    }

    pub fn stack(&self) -> &Stack
        ensures { result.now ≡ self.now.stack }
    {
        &self.stack
    }

    pub fn first(&self) -> bool
        ensures { result ≡ self.now.first }
    {
        self.first
    }

    /// The same state, which shares its frames.
    pub fn copy(&self) -> Result<State, AllocError>
        ensures { IfOk result (λ state. state ≡ self.now) }
    {
        Ok(State {
            stack: self.stack.copy()?,
            first: self.first,
        })
    }

    /// Whether a line that starts with one goes as with the other: both are the same but for the places where frames
    /// were entered and their anchors.
    pub fn same(&self, other: &State) -> bool
        ensures { IsTrue result ↔ (bare self.now ≡ bare other.now) }
    {
        self.first == other.first && self.stack.same(&other.stack)
    }
}
