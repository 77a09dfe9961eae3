//! Makes the generated text of a number of lines.

ghost use Rattle.std.specs.Prelude.{◌≡◌, ◌++◌, ◌<◌, ◌≤◌, true, IfOk, OnOk};
ghost use Rattle.line_text.specs.Refusals.{is_memory};
ghost use Rattle.generator_defs.specs.GeneratedText.{generated_line, generated_text};

use crate::pieces::piece;
use generator_defs::{MOST_GENERATED_LINES, PIECES_OF_A_LINE};
use line_text::{Text, TextRefusal};
use std::alloc::{AllocError, Global};

/// The text of n lines.
pub fn make_text(alloc: Global, n: u32) -> Result<Text, AllocError>
    requires some { 1 ≤ n }
    requires few { n ≤ MOST_GENERATED_LINES }
    ensures { IfOk result (λ text. text ≡ generated_text n) }
{
    let bytes = text_bytes(alloc, n)?;
    match Text::from_bytes(alloc, bytes.as_slice()) {
        Ok(text) => Ok(text),
        Err(refusal) => Err(want_of_memory(refusal)),
    }
}

/// The one cause that is left, for a text within the limits.
fn want_of_memory(refusal: TextRefusal) -> AllocError
    requires { is_memory refusal ≡ true }
{
    match refusal {
        TextRefusal::Memory(error) => error,
        TextRefusal::NotUtf8 { .. }
        | TextRefusal::TooManyChars { .. }
        | TextRefusal::TooManyLines { .. } => unreachable!(),
    }
}

/// The characters of the text, which are ASCII.
fn text_bytes(alloc: Global, n: u32) -> Result<Vec<u8>, AllocError>
    requires some { 1 ≤ n }
    requires few { n ≤ MOST_GENERATED_LINES }
    ensures { IfOk result (λ bytes. bytes.items ≡ generated_text n) }
{
    let mut bytes = Vec::new(alloc);
    push_line(&mut bytes, n, 0)?;
    for i in 1..n {
        bytes.push(b'\n')?;
        push_line(&mut bytes, n, i)?;
    }
    Ok(bytes)
}

/// Adds line i of the text of n lines.
fn push_line(bytes: &mut Vec<u8>, n: u32, i: u32) -> Result<(), AllocError>
    requires few { n ≤ MOST_GENERATED_LINES }
    requires there { i < n }
    ensures { OnOk result (bytes.new.items ≡ bytes.old.items ++ generated_line n i) }
{
    for p in 0..PIECES_OF_A_LINE {
        bytes.push(piece(3 * i + 5 * p + i * p + n))?;
    }
    Ok(())
}
