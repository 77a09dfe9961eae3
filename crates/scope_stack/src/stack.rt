//! Stacks of frames, which share what they have in common.

ghost use Rattle.std.specs.Prelude.{◌≡◌, ◌<◌, ◌≤◌, ◌↔◌, [], IfOk, IsTrue};
ghost use Rattle.std.specs.Option.{option_copied};
ghost use Rattle.scope_defs.specs.Frames.{frames, depth, on, stack_of, forgotten_all};
ghost use Rattle.scope_stack.specs.Numbers.{frames_number};

use crate::frame::Frame;
use crate::numbers::frame_number;
use scope_defs::MOST_FRAMES;
use scope_names::numbers::SEED;
use std::alloc::{AllocError, Global};
use std::marker::Model;
use std::rc::Rc;

/// Open rules, the innermost on top. Stacks that were made from one another share what they have in common.
#[cycle(stack)]
pub struct Stack {
    shared: Rc<Level>,
}

/// A frame on the stack of those below.
#[cycle(stack)]
#[derive(Drop)]
struct Level {
    frame: Frame,
    below: Option<Stack>,
    /// How many frames these are.
    depth: u32,
    /// The number that is made of them.
    number: u64,
}

impl Model for Stack {
    ghost use Rattle.scope_defs.specs.Frames.{Stack as OpenRules, depth};

    ghost Value = { OpenRules };

    ghost use Rattle.scope_stack.specs.Levels.{stack_at, Keeps};

    ghost view = { λ stack. stack_at stack.shared.value };

    ghost invariant = { λ stack. Keeps stack.shared.value };

    ghost size = { depth };

    ghost use Rattle.scope_stack.specs.Falls.{frames_fall};

    ghost size_decreases = { λ stack keeps. frames_fall stack };
}

impl Drop for Stack {
    fn drop(mut self) {
        loop {
            let Stack { shared } = self;
            match Rc::into_inner(shared) {
                None => return,
                Some(level) => {
                    let Level {
                        frame: _,
                        below,
                        depth: _,
                        number: _,
                    } = level;
                    match below {
                        None => return,
                        Some(stack) => self = stack,
                    }
                }
            }
        }
    }
}

impl Stack {
    /// One frame alone.
    pub fn root(alloc: Global, frame: Frame) -> Result<Stack, AllocError>
        ensures { IfOk result (λ stack. stack ≡ record { top = frame; below = [] }) }
    {
        let number = frame_number(SEED, &frame);
        let level = Level {
            frame,
            below: None,
            depth: 1,
            number,
        };
        Ok(Stack {
            shared: Rc::new(alloc, level)?,
        })
    }

    /// A frame on these.
    pub fn push(&self, alloc: Global, frame: Frame) -> Result<Stack, AllocError>
        requires { depth self.now < MOST_FRAMES }
        ensures { IfOk result (λ stack. stack ≡ on frame self.now) }
    {
        let number = frame_number(self.number(), &frame);
        let depth = self.depth() + 1;
        let level = Level {
            frame,
            below: Some(self.copy()?),
            depth,
            number,
        };
        Ok(Stack {
            shared: Rc::new(alloc, level)?,
        })
    }

    /// The same frames, shared.
    pub fn copy(&self) -> Result<Stack, AllocError>
        ensures { IfOk result (λ stack. stack ≡ self.now) }
    {
        Ok(Stack {
            shared: self.shared.clone()?,
        })
    }

    /// The innermost frame.
    pub fn top(&self) -> &Frame
        ensures { result.now ≡ self.now.top }
    {
        &self.shared.frame
    }

    /// The frames below the innermost, where there are any.
    pub fn below(&self) -> Option<&Stack>
        ensures { option_copied result ≡ stack_of self.now.below }
    {
        self.shared.below.as_ref()
    }

    /// How many frames these are.
    pub fn depth(&self) -> u32
        ensures count { result ≡ depth self.now }
        ensures few { result ≤ MOST_FRAMES }
    {
        self.shared.depth
    }

    /// The number that is made of the frames.
    fn number(&self) -> u64
        ensures { result ≡ frames_number (frames self.now) }
    {
        self.shared.number
    }

    /// Whether both are the same frames but for the places where these were entered and their anchors.
    pub fn same(&self, other: &Stack) -> bool
        ensures { IsTrue result ↔ (forgotten_all self.now ≡ forgotten_all other.now) }
    {
        if self.number() != other.number() || self.depth() != other.depth() {
            return false;
        }
        same_frames(self, other)
    }
}

/// The same, one frame after the other.
fn same_frames(stack: &Stack, other: &Stack) -> bool
    ensures { IsTrue result ↔ (forgotten_all stack.now ≡ forgotten_all other.now) }
{
    let mut mine = stack;
    let mut theirs = other;
    loop {
        if !mine.top().same(theirs.top()) {
            return false;
        }
        match (mine.below(), theirs.below()) {
            (Some(mine_below), Some(theirs_below)) => {
                mine = mine_below;
                theirs = theirs_below;
            }
            (None, None) => return true,
            _ => return false,
        }
    }
}
