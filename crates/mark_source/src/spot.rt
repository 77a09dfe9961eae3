//! The first mark from a place on.

ghost use Rattle.std.specs.Prelude.{◌≡◌, ◌+◌, ◌<◌, ◌≤◌, length, drop, suc, true, false, nat_lt, IfSome};
ghost use Rattle.std.specs.List.Sorted.{IsNonDecreasingBy, IsPartitionPoint};
ghost use Rattle.bracket_marks.specs.MarkedLine.{marks_in};
ghost use Rattle.mark_source.specs.Source.{AreMarked, marks_from, first};
ghost use Rattle.mark_source.specs.Reading.{from_spot, later, marks_at, IsSpot};

use bracket_lex::MarkLines;
use pairing_defs::{LineMark, Mark};
use text_pos::Pos;

/// A mark: its line, and its number among the marks of that line. Behind the last mark it is the number of lines, and 0.
#[derive(Clone, Copy)]
pub(crate) struct Spot {
    pub(crate) line: u32,
    pub(crate) index: usize,
}

/// The mark at a spot, or else the first mark of a later line.
pub(crate) fn settled(lines: &MarkLines, from: Spot) -> Spot
    requires there { from.line < length lines.now }
    requires within { from.index ≤ length (marks_at lines.now from.line) }
    ensures is { IsSpot lines.now result }
    ensures same { from_spot lines.now result ≡ from_spot lines.now from }
{
    let count = lines.len();
    let mut spot = from;
    while spot.index >= lines.get(spot.line).marks().len() {
        spot = Spot {
            line: spot.line + 1,
            index: 0,
        };
        if spot.line as usize >= count {
            return spot;
        }
    }
    spot
}

/// The mark at a spot.
pub(crate) fn mark_at(lines: &MarkLines, spot: Spot) -> Option<Mark>
    requires { IsSpot lines.now spot }
    ensures mark { result ≡ first (from_spot lines.now spot) }
    ensures there { IfSome result (λ _. spot.line < length lines.now) }
{
    if spot.line as usize >= lines.len() {
        return None;
    }
    let mark = lines.get(spot.line).marks()[spot.index];
    Some(Mark {
        at: Pos {
            line: spot.line,
            col: mark.from,
        },
        to: mark.to,
        role: mark.role,
    })
}

/// The mark behind that at a spot, or else the first mark of a later line.
pub(crate) fn behind(lines: &MarkLines, spot: Spot) -> Spot
    requires is { IsSpot lines.now spot }
    requires there { spot.line < length lines.now }
    ensures is { IsSpot lines.now result }
    ensures same { from_spot lines.now result ≡ drop (suc spot.index) (later spot.line lines.now) }
{
    let count = lines.get(spot.line).marks().len();
    prove!(spot.index < count);
    settled(
        lines,
        Spot {
            line: spot.line,
            index: spot.index + 1,
        },
    )
}

/// How many of the marks of a line, which stand in order, start before a column.
fn count_before(marks: &[LineMark], col: u32) -> usize
    requires { IsNonDecreasingBy (λ m. m.from) marks.now }
    ensures bound { result ≤ length marks.now }
    ensures point { IsPartitionPoint (λ m. nat_lt m.from col ≡ true) (λ m. nat_lt m.from col ≡ false) marks.now result }
{
    marks.partition_point(|mark| mark.from < col)
}

/// The first mark that starts at or behind a place.
pub(crate) fn spot_from(lines: &MarkLines, place: Pos) -> Spot
    requires { AreMarked lines.now }
    ensures is { IsSpot lines.now result }
    ensures stands { from_spot lines.now result ≡ marks_from place (marks_in lines.now) }
{
    if place.line as usize >= lines.len() {
        return Spot {
            line: lines.len() as u32,
            index: 0,
        };
    }
    let marks = lines.get(place.line).marks();
    let index = count_before(marks, place.col);
    settled(
        lines,
        Spot {
            line: place.line,
            index,
        },
    )
}
