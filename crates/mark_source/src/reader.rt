//! The marks of some lines from a place on, one after the other.

ghost use Rattle.std.specs.Prelude.{◌≡◌, ℕ, ◌+◌, ◌<◌, ◌≤◌, length};
ghost use Rattle.mark_source.specs.Source.{Source, AreMarked, is_before};
ghost use Rattle.mark_source.specs.Reading.{is_passed};

use crate::source::MarkSource;
use crate::spot::{Spot, behind, mark_at, spot_from};
use bracket_lex::MarkLines;
use pairing_defs::Mark;
use std::marker::Model;
use std::sync::ledger::Ledger;
use step_count::Steps;
use text_pos::Pos;

/// The marks of some lines, from a place on.
#[derive(Drop)]
pub struct MarkReader<'a> {
    lines: &'a MarkLines,
    /// The place that was reached.
    place: Pos,
    /// The first mark from there on.
    spot: Spot,
    given: u64,
}

impl<'a> Model for MarkReader<'a> {
    ghost use Rattle.mark_source.specs.Source.{Source};
    ghost use Rattle.mark_source.specs.Reading.{source_of, IsReader};

    ghost Value = { Source };

    ghost view = { source_of };

    ghost invariant = { IsReader };
}

/// Whether a place lies before another.
fn is_before(place: Pos, other: Pos) -> bool
    ensures { result ≡ is_before place other }
{
    place.line < other.line || (place.line == other.line && place.col < other.col)
}

/// Whether the next mark starts before a place.
fn is_passed(next: Option<Mark>, place: Pos) -> bool
    ensures { result ≡ is_passed next place }
{
    match next {
        None => false,
        Some(mark) => is_before(mark.at, place),
    }
}

impl<'a> MarkReader<'a> {
    /// A reader of these lines, at the text's start.
    pub fn new(lines: &'a MarkLines) -> MarkReader<'a>
        requires { AreMarked lines.now }
        ensures { result ≡ record { lines = lines.now; place = record { line = 0; col = 0 }; given = 0 } }
    {
        let place = Pos { line: 0, col: 0 };
        MarkReader {
            lines,
            place,
            spot: spot_from(lines, place),
            given: 0,
        }
    }
}

impl<'a> MarkSource for MarkReader<'a> {
    ghost told = { λ r. r };

    fn end(&self) -> Pos {
        self.lines.end()
    }

    fn seek(&mut self, to: Pos) {
        self.place = to;
        if is_passed(mark_at(self.lines, self.spot), to) {
            self.spot = spot_from(self.lines, to);
        }
    }

    fn peek(&self) -> Option<Pos> {
        match mark_at(self.lines, self.spot) {
            Some(mark) => Some(mark.at),
            None => None,
        }
    }

    fn next<M: Ledger>(&mut self, marks: &mut Steps<M>) -> Option<Mark> {
        let mark = mark_at(self.lines, self.spot)?;
        marks.tick();
        self.place = Pos {
            line: mark.at.line,
            col: mark.to,
        };
        self.spot = behind(self.lines, self.spot);
        self.given = self.given.saturating_add(1);
        Some(mark)
    }
}
