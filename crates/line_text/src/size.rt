//! How many characters and lines a text has.

ghost use Rattle.std.specs.Prelude.{◌≡◌, ◌+◌, ◌==◌, if◌then◌else◌};
ghost use Rattle.std.specs.Str.{chars};
ghost use Rattle.text_defs.specs.Batch.{counted};
ghost use Rattle.line_text.specs.LineEnds.{normed};
ghost use Rattle.line_text.specs.Sizes.{IsSizeOf};

use crate::before::Before;

/// How many characters and lines a text has. Where there are more than a u64 holds, the count stays at
/// the largest u64.
#[derive(Clone, Copy, Debug)]
pub(crate) struct Size {
    pub(crate) chars: u64,
    pub(crate) lines: u64,
}

impl Size {
    /// Counts one character more.
    fn count(&mut self, c: char)
        ensures chars { self.new.chars ≡ counted (self.old.chars + 1) }
        ensures lines { self.new.lines ≡ (if c == 10 then counted (self.old.lines + 1) else self.old.lines) }
    {
        self.chars = self.chars.saturating_add(1);
        if c == '\n' {
            self.lines = self.lines.saturating_add(1);
        }
    }
}

/// The size of what these characters add to a text.
pub(crate) fn size_of(text: &str, mut before: Before) -> Size
    ensures { IsSizeOf (normed before (chars text.now)) result }
{
    let mut size = Size { chars: 0, lines: 1 };
    for c in text.chars() {
        if let Some(added) = before.take(c) {
            size.count(added);
        }
    }
    size
}
