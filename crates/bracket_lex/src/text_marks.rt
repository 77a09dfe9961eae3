//! The marks of a text of which each line is one token of type Other.

ghost use Rattle.std.specs.Prelude.{◌≡◌, ◌<◌, ◌^◌, length, map, IfOk};
ghost use Rattle.text_defs.specs.Text.{lines_of};
ghost use Rattle.text_defs.specs.Place.{place_of};
ghost use Rattle.pairing_defs.specs.Marks.{every_column, marks_of, text_marks};
ghost use Rattle.bracket_marks.specs.MarkedLine.{marked_line, marks_in, text_end};

use crate::mark_lines::MarkLines;
use bracket_marks::{Brackets, LineMarks};
use line_text::{Line, Text};
use scope_defs::{StdType, TypeRun};
use std::alloc::{AllocError, Global};
use text_defs::MOST_CHARS;

impl MarkLines {
    /// The lines of a text, each with its marks and its length. A line of `long` or more characters has no marks.
    pub fn of_text(
        alloc: Global,
        brackets: &Brackets,
        text: &Text,
        long: u32,
    ) -> Result<MarkLines, AllocError>
        ensures lines { IfOk result (λ lines. lines ≡ map (marked_line brackets.now long) (lines_of text.now)) }
        ensures marks { IfOk result (λ lines. marks_in lines ≡ text_marks brackets.now long (lines_of text.now)) }
        ensures few { IfOk result (λ lines. length (marks_in lines) < 2 ^ 32) }
        ensures some { IfOk result (λ lines. 0 < length lines) }
        ensures end { IfOk result (λ lines. text_end lines ≡ place_of text.now (length text.now)) }
    {
        prove!(u64::from(text.chars()) <= MOST_CHARS);
        let mut lines = MarkLines::new(alloc);
        for n in 0..text.lines() {
            lines.push(marks_of_other(alloc, brackets, text.line(n), long)?)?;
        }
        Ok(lines)
    }
}

/// The marks of a line that is one token of type Other.
#[tactic(auto, using(crate::proofs::OneRun::marks_of_other_run))]
fn marks_of_other(
    alloc: Global,
    brackets: &Brackets,
    line: &Line,
    long: u32,
) -> Result<LineMarks, AllocError>
    requires { length line.now < 2 ^ 32 }
    ensures marks { IfOk result (λ found. found.marks ≡ marks_of brackets.now long every_column line.now) }
    ensures length { IfOk result (λ found. found.length ≡ length line.now) }
{
    let run = TypeRun {
        to: line.chars().len() as u32,
        kind: StdType::Other,
    };
    brackets.marks(alloc, line, &[run], long)
}
