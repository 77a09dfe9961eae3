//! Frames without the places where they were entered and without their anchors.

ghost use Rattle.std.specs.Prelude.{◌≡◌, ◌↔◌, IsTrue, IfOk};
ghost use Rattle.scope_defs.specs.Frames.{forgotten, forgotten_all};

use scope_stack::{Frame, Stack};
use std::alloc::{AllocError, Global};

/// Whether no frame tells where it was entered, nor an anchor.
fn is_forgotten(stack: &Stack) -> bool
    ensures { IsTrue result → forgotten_all stack.now ≡ stack.now }
{
    let mut at = stack;
    loop {
        let frame = at.top();
        if frame.enter.is_some() || frame.anchor.is_some() {
            return false;
        }
        match at.below() {
            None => return true,
            Some(below) => at = below,
        }
    }
}

/// A frame without the place where it was entered, and without its anchor.
fn forgotten_frame(frame: &Frame) -> Result<Frame, AllocError>
    ensures { IfOk result (λ f. f ≡ forgotten frame.now) }
{
    let mut copy = frame.copy()?;
    copy.enter = None;
    copy.anchor = None;
    Ok(copy)
}

/// The same frames without the places where they were entered and their anchors. Those that tell none are shared.
pub(crate) fn forgotten_stack(alloc: Global, stack: &Stack) -> Result<Stack, AllocError>
    ensures { IfOk result (λ s. s ≡ forgotten_all stack.now) }
{
    if is_forgotten(stack) {
        return stack.copy();
    }
    let _frames = stack.depth();
    let frame = forgotten_frame(stack.top())?;
    match stack.below() {
        None => Stack::root(alloc, frame),
        Some(below) => {
            let below = forgotten_stack(alloc, below)?;
            below.push(alloc, frame)
        }
    }
}
