//! The number that is made of the frames of a stack.

ghost use Rattle.std.specs.Prelude.{◌≡◌};
ghost use Rattle.scope_stack.specs.Numbers.{frame_number};

use crate::frame::Frame;
use scope_names::numbers::mixed;

/// The number of frames, of that of those below and the innermost.
pub(crate) fn frame_number(below: u64, frame: &Frame) -> u64
    ensures { result ≡ frame_number below frame.now }
{
    let rule = mixed(below, u64::from(frame.rule.0));
    let took_end = mixed(rule, u64::from(frame.took_end));
    let end = mixed(took_end, frame.end.number());
    mixed(mixed(end, frame.name.number()), frame.content.number())
}
