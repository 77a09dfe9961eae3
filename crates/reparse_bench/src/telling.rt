//! A source that tells how many marks it gave.
ghost use Rattle.std.specs.Prelude.{◌≡◌};
ghost use Rattle.mark_source.specs.Source.{AreMarked};

use bracket_lex::{Mark, MarkLines};
use mark_source::{MarkReader, MarkSource};
use std::sync::ledger::Ledger;
use step_count::Steps;
use text_pos::Pos;

#[derive(Drop)]
pub(crate) struct Telling<'a> {
    reader: MarkReader<'a>,
    pub(crate) given: u64,
}

impl<'a> Telling<'a> {
    pub(crate) fn new(lines: &'a MarkLines) -> Telling<'a>
        requires { AreMarked lines.now }
        ensures { result.reader ≡ record { lines = lines.now; place = record { line = 0; col = 0 }; given = 0 } }
    {
        Telling {
            reader: MarkReader::new(lines),
            given: 0,
        }
    }
}

impl<'a> MarkSource for Telling<'a> {
    ghost told = { λ t. t.reader };

    fn end(&self) -> Pos {
        self.reader.end()
    }

    fn seek(&mut self, to: Pos) {
        self.reader.seek(to);
    }

    fn peek(&self) -> Option<Pos> {
        self.reader.peek()
    }

    fn next<M: Ledger>(&mut self, marks: &mut Steps<M>) -> Option<Mark> {
        let mark = self.reader.next(marks)?;
        self.given = self.given.saturating_add(1);
        Some(mark)
    }
}
