//! Pairs the marks of a text into rows.

ghost use Rattle.std.specs.Prelude.{◌≡◌, ◌<◌, ◌^◌, List, length, IfOk};
ghost use Rattle.pairing_defs.specs.declared.Row.{Row};
ghost use Rattle.pairing_defs.specs.Pairing.{paired};
ghost use Rattle.bracket_marks.specs.MarkedLine.{MarkedLine, marks_in};

use crate::mark_lines::MarkLines;
use crate::open_marks::OpenMarks;
use crate::partners::finish;
use pairing_defs::Row;
use std::alloc::{AllocError, Global};
use std::marker::Model;
use text_pos::Pos;

/// The rows of a text's marks, in order.
#[derive(Debug, Drop)]
pub struct Paired {
    rows: Vec<Row>,
}

impl Model for Paired {
    ghost use Rattle.std.specs.Prelude.{List, ◌<◌, ◌^◌, length};
    ghost use Rattle.pairing_defs.specs.declared.Row.{Row};

    ghost Value = { List Row };

    ghost view = { λ p. p.rows.items };

    ghost invariant = { λ p. length p.rows.items < 2 ^ 32 };
}

impl Paired {
    /// Pairs the marks of a text that ends at `end`, where at most `limit` brackets may be open at once. They are
    /// paired as in VS Code's bracketPairsTree; the limit and the colours are this project's own.
    pub fn of(alloc: Global, lines: &MarkLines, end: Pos, limit: u32) -> Result<Paired, AllocError>
        requires { length (marks_in lines.now) < 2 ^ 32 }
        ensures { IfOk result (λ p. p ≡ paired limit end (marks_in lines.now)) }
    {
        let mut open_marks = OpenMarks::new(alloc, limit);
        let mut n = 0;
        for line in lines.iter() {
            open_marks.take_line(n, line.get().marks())?;
            n += 1;
        }
        let mut rows = open_marks.into_rows();
        finish(alloc, &mut rows, end)?;
        Ok(Paired { rows })
    }

    /// The rows, in order of the text.
    pub fn rows(&self) -> &[Row]
        ensures rows { result.now ≡ self.now }
        ensures few { length result.now < 2 ^ 32 }
    {
        &self.rows
    }
}
