//! Answers about a place: the bracket there, the pairs around it, and where to jump.
ghost use Rattle.std.specs.Prelude.{◌≡◌, ◌<◌, ◌^◌, length, option_and_then};
ghost use Rattle.std.specs.List.{find};
ghost use Rattle.std.specs.Option.{option_copied, option_map, option_or};
ghost use Rattle.answer_defs.specs.PairAnswers.{stands_at, ends_at, touched, partner_of, span_of, end_of, twin, twin_of, match_in, is_opener, encloses, encloses_closed, level_in, around_in, find_last, starts_from, next_start, jump_in};
ghost use Rattle.text_defs.specs.Place.{is_before};

use answer_defs::Twin;
use pairing_defs::{Role, Row};
use text_pos::{Pos, Span};

/// The bracket at a place and its partner: the bracket that has its first or a further character behind the place, else
/// the one that ends there. None where no bracket is there, or where it has no partner.
pub fn match_at(rows: &[Row], at: Pos) -> Option<Twin>
    ensures { result ≡ match_in rows.now at }
{
    twin_of(rows, touched(rows, at)?)
}

/// Of the closed pairs around a place the one that opens last. A pair is around a place where its opener ends there or
/// before it and its closer starts there or behind it.
pub fn around(rows: &[Row], at: Pos) -> Option<Twin>
    ensures { result ≡ around_in rows.now at }
{
    twin_of(rows, last_around(rows, at)?)
}

/// Where to jump from a place: to the partner of the bracket there, else to the closer of the pair around it, else to
/// the next bracket. None where nothing of these is there.
pub fn jump(rows: &[Row], at: Pos) -> Option<Pos>
    ensures { result ≡ jump_in rows.now at }
{
    if let Some(twin) = match_at(rows, at) {
        return Some(twin.second.from);
    }
    if let Some(twin) = around(rows, at) {
        return Some(twin.second.from);
    }
    next_start(rows, at)
}

/// How many pairs are open at a place, with those that nothing closes.
pub fn level_at(rows: &[Row], at: Pos) -> u32
    requires { length rows.now < 2 ^ 32 }
    ensures { result ≡ level_in rows.now at }
{
    rows.iter().filter(|row| encloses(row, at)).count() as u32
}

fn touched(rows: &[Row], at: Pos) -> Option<&Row>
    ensures { option_copied result ≡ touched at rows.now }
{
    standing_at(rows, at).or(ending_at(rows, at))
}

fn standing_at(rows: &[Row], at: Pos) -> Option<&Row>
    ensures { option_copied result ≡ find (stands_at at) rows.now }
{
    rows.iter().find(|row| stands_at(row, at))
}

fn ending_at(rows: &[Row], at: Pos) -> Option<&Row>
    ensures { option_copied result ≡ find (ends_at at) rows.now }
{
    rows.iter().find(|row| ends_at(row, at))
}

fn last_around(rows: &[Row], at: Pos) -> Option<&Row>
    ensures { option_copied result ≡ find_last (encloses_closed at) rows.now }
{
    rows.iter().rev().find(|row| encloses_closed(row, at))
}

/// Where the first bracket starts that starts at a place or behind it.
fn next_start(rows: &[Row], at: Pos) -> Option<Pos>
    ensures { result ≡ next_start rows.now at }
{
    let row = rows.iter().find(|row| starts_from(row, at))?;
    Some(row.mark.at)
}

/// A row and its partner, where it has one.
fn twin_of(rows: &[Row], row: &Row) -> Option<Twin>
    ensures { result ≡ twin_of rows.now row.now }
{
    let partner = partner_of(rows, row)?;
    Some(Twin {
        first: span_of(row),
        second: span_of(partner),
    })
}

/// The row of a row's partner.
pub(crate) fn partner_of<'a>(rows: &'a [Row], row: &Row) -> Option<&'a Row>
    ensures { option_copied result ≡ partner_of rows.now row.now }
{
    let n = row.partner?;
    rows.get(n as usize)
}

fn span_of(row: &Row) -> Span
    ensures { result ≡ span_of row.now }
{
    Span {
        from: row.mark.at,
        to: end_of(row),
    }
}

fn end_of(row: &Row) -> Pos
    ensures { result ≡ end_of row.now }
{
    Pos {
        line: row.mark.at.line,
        col: row.mark.to,
    }
}

fn stands_at(row: &Row, at: Pos) -> bool
    ensures { result ≡ stands_at at row.now }
{
    row.mark.at.line == at.line && row.mark.at.col <= at.col && at.col < row.mark.to
}

fn ends_at(row: &Row, at: Pos) -> bool
    ensures { result ≡ ends_at at row.now }
{
    row.mark.at.line == at.line && row.mark.to == at.col
}

fn starts_from(row: &Row, at: Pos) -> bool
    ensures { result ≡ starts_from at row.now }
{
    !is_before(row.mark.at, at)
}

fn encloses(row: &Row, at: Pos) -> bool
    ensures { result ≡ encloses at row.now }
{
    is_opener(row) && !is_before(at, end_of(row)) && !is_before(row.inner, at)
}

fn encloses_closed(row: &Row, at: Pos) -> bool
    ensures { result ≡ encloses_closed at row.now }
{
    encloses(row, at) && row.partner.is_some()
}

pub(crate) fn is_opener(row: &Row) -> bool
    ensures { result ≡ is_opener row.now }
{
    matches!(row.mark.role, Role::Opener(_))
}

/// Whether a place is before another, by line and then by column.
fn is_before(a: Pos, b: Pos) -> bool
    ensures { result ≡ is_before a b }
{
    a.line < b.line || (a.line == b.line && a.col < b.col)
}
