//! Makes the edits that follow a generated text.

ghost use Rattle.std.specs.Prelude.{◌≡◌, ◌∷◌, [], ◌<◌, ◌≤◌, IfOk};
ghost use Rattle.std.specs.Str.{chars};
ghost use Rattle.generator_defs.specs.GeneratedText.{deletion, generated_edit, inserted, insertion};

use crate::pieces::piece;
use generator_defs::{GENERATED_EDITS, MOST_GENERATED_LINES};
use line_text::{Edit, Text};
use std::alloc::{AllocError, Global};
use text_pos::{Pos, Span};

/// Edit j of the edits that follow the text of n lines, of the text at hand.
pub fn make_edit(alloc: Global, n: u32, j: u32, text: &Text) -> Result<Edit, AllocError>
    requires few_lines { n ≤ MOST_GENERATED_LINES }
    requires few_edits { j ≤ GENERATED_EDITS }
    ensures { IfOk result (λ edit. edit ≡ generated_edit n j text.now) }
{
    let line = 37 * j % text.lines();
    let length = text.line(line).chars().len() as u32;
    let col = 11 * j % (length + 1);
    let at = Pos { line, col };
    if j % 4 == 0 && col < length {
        deletion(alloc, at)
    } else {
        insertion(alloc, at, inserted(n, j))
    }
}

/// The edit by which the character at a place goes.
fn deletion(alloc: Global, at: Pos) -> Result<Edit, AllocError>
    requires { at.col < u32.MAX }
    ensures { IfOk result (λ edit. edit ≡ deletion at) }
{
    let to = Pos {
        line: at.line,
        col: at.col + 1,
    };
    Edit::new(alloc, Span { from: at, to }, "")
}

/// The edit by which an ASCII character comes to a place.
fn insertion(alloc: Global, at: Pos, c: u8) -> Result<Edit, AllocError>
    requires { c < 128 }
    ensures { IfOk result (λ edit. edit ≡ insertion at c) }
{
    let mut text = String::new(alloc);
    text.push(char::from(c))?;
    Edit::new(alloc, Span { from: at, to: at }, text.as_str())
}

/// What edit j inserts, if it inserts something.
fn inserted(n: u32, j: u32) -> u8
    requires few_lines { n ≤ MOST_GENERATED_LINES }
    requires few_edits { j ≤ GENERATED_EDITS }
    ensures inserted { result ≡ inserted n j }
    ensures ascii { result < 128 }
{
    if j % 8 == 7 { b'\n' } else { piece(5 * j + n) }
}
