//! A text without one of its brackets.
use bracket_lex::{LineMark, MarkLines};
use line_text::Text;
use std::alloc::{AllocError, Global};

/// The first bracket of a line.
pub(crate) fn first_mark(lines: &MarkLines, line: u32) -> Option<LineMark> {
    if line as usize >= lines.len() {
        return None;
    }
    lines.get(line).marks().first().copied()
}

/// The text without a bracket of a line.
pub(crate) fn without(
    alloc: Global,
    text: &Text,
    line: u32,
    mark: LineMark,
) -> Result<String, AllocError> {
    let mut rest = String::new(alloc);
    for n in 0..text.lines() {
        if n > 0 {
            rest.push('\n')?;
        }
        for (col, c) in text.line(n).chars().iter().enumerate() {
            if n != line || col < mark.from as usize || col >= mark.to as usize {
                rest.push(*c)?;
            }
        }
    }
    Ok(rest)
}
