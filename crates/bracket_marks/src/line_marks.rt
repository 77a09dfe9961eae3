//! The marks of one line, and how many characters it has.

ghost use Rattle.std.specs.Prelude.{◌≡◌, [], List, IfOk};
ghost use Rattle.pairing_defs.specs.declared.LineMark.{LineMark};

use pairing_defs::LineMark;
use std::alloc::{AllocError, Global};
use std::marker::Model;

/// The marks of one line, and how many characters the line has.
#[derive(Debug, Drop)]
pub struct LineMarks {
    marks: Vec<LineMark>,
    length: u32,
}

impl Model for LineMarks {
    ghost use Rattle.bracket_marks.specs.MarkedLine.{MarkedLine};

    ghost Value = { MarkedLine };

    ghost view = { λ m. record { marks = m.marks.items; length = m.length } };
}

impl LineMarks {
    /// A line with these marks.
    pub(crate) fn of(marks: Vec<LineMark>, length: u32) -> LineMarks
        ensures marks { result.marks ≡ marks.items }
        ensures length { result.length ≡ length }
    {
        LineMarks { marks, length }
    }

    /// A line of this length without marks.
    pub fn none(alloc: Global, length: u32) -> Result<LineMarks, AllocError>
        ensures marks { IfOk result (λ line. line.marks ≡ []) }
        ensures length { IfOk result (λ line. line.length ≡ length) }
    {
        Ok(LineMarks {
            marks: Vec::new(alloc),
            length,
        })
    }

    pub fn copy(&self, alloc: Global) -> Result<LineMarks, AllocError>
        ensures { IfOk result (λ line. line ≡ self.now) }
    {
        Ok(LineMarks {
            marks: Vec::from_slice(alloc, &self.marks)?,
            length: self.length,
        })
    }

    /// The marks, in order.
    pub fn marks(&self) -> &[LineMark]
        ensures { result.now ≡ self.now.marks }
    {
        &self.marks
    }

    /// How many characters the line has.
    pub fn length(&self) -> u32
        ensures { result ≡ self.now.length }
    {
        self.length
    }
}
