//! Answers about a range of lines: the pairs that reach into it, and the guides of its lines.
ghost use Rattle.std.specs.Prelude.{◌≡◌, ◌+◌, ◌*◌, ◌<◌, ◌≤◌, ◌++◌, ◌^◌, IfOk, OnOk, OnErr, length};
ghost use Rattle.text_defs.specs.Text.{lines_of, line_count};
ghost use Rattle.answer_defs.specs.PairAnswers.{mark_at, reaches_lines, pair_row, pairs_in, indentation, indentation_of, tab_stop, has_guide, guide_row, guides_of_line, guides_in};

use crate::places::{is_opener, partner_of};
use answer_defs::{GuideRow, GuideRows, MOST_TAB, MarkAt, PairRow, PairRows};
use line_text::Text;
use pairing_defs::Row;
use std::alloc::{AllocError, Global};

/// The pairs, closed or not, that reach into the lines `from` to `to`, by opener. A pair reaches from its opener to its
/// closer, or to where its inside ends.
pub fn pairs(alloc: Global, rows: &[Row], from: u32, to: u32) -> Result<PairRows, AllocError>
    ensures { IfOk result (λ found. found ≡ pairs_in rows.now from to) }
{
    let mut found = PairRows::new(alloc);
    for row in rows {
        if reaches_lines(row, from, to) {
            found.push(pair_row(rows, row))?;
        }
    }
    Ok(found)
}

fn reaches_lines(row: &Row, from: u32, to: u32) -> bool
    ensures { result ≡ reaches_lines from to row.now }
{
    is_opener(row) && row.mark.at.line <= to && from <= row.inner.line
}

fn pair_row(rows: &[Row], row: &Row) -> PairRow
    ensures { result ≡ pair_row rows.now row.now }
{
    PairRow {
        opener: mark_at(row),
        closer: partner_of(rows, row).map(mark_at),
        level: row.level,
        own: row.own,
    }
}

fn mark_at(row: &Row) -> MarkAt
    ensures { result ≡ mark_at row.now }
{
    MarkAt {
        line: row.mark.at.line,
        from: row.mark.at.col,
        to: row.mark.to,
    }
}

/// The guides of the lines `from` to `to`, by line and then by level: each closed pair has one in each line behind its
/// opener's, up to its closer's. A column is as far in as the lesser of the indentations of those two lines, where a
/// tab goes to the next multiple of `tab`. As VS Code's bracket pair guides, but for the column.
pub fn guides(
    alloc: Global,
    rows: &[Row],
    text: &Text,
    tab: u32,
    from: u32,
    to: u32,
) -> Result<GuideRows, AllocError>
    requires some { 1 ≤ tab }
    requires few { tab ≤ MOST_TAB }
    requires last { to < line_count text.now }
    ensures { IfOk result (λ found. found ≡ guides_in tab (lines_of text.now) rows.now from to) }
{
    let lines = text.lines();
    prove!(to < lines);
    let mut found = GuideRows::new(alloc);
    for line in from..to + 1 {
        add_guides(&mut found, rows, text, tab, line)?;
    }
    Ok(found)
}

/// Adds the guides of a line.
fn add_guides(
    found: &mut GuideRows,
    rows: &[Row],
    text: &Text,
    tab: u32,
    line: u32,
) -> Result<(), AllocError>
    requires some { 1 ≤ tab }
    requires few { tab ≤ MOST_TAB }
    ensures { OnOk result (found.new ≡ found.old ++ guides_of_line tab (lines_of text.now) rows.now line) }
{
    for row in rows {
        if has_guide(row, line) {
            found.push(guide_row(row, text, tab, line))?;
        }
    }
    Ok(())
}

fn has_guide(row: &Row, line: u32) -> bool
    ensures { result ≡ has_guide line row.now }
{
    is_opener(row) && row.partner.is_some() && row.mark.at.line < line && line <= row.inner.line
}

fn guide_row(row: &Row, text: &Text, tab: u32, line: u32) -> GuideRow
    requires some { 1 ≤ tab }
    requires few { tab ≤ MOST_TAB }
    ensures { result ≡ guide_row tab (lines_of text.now) line row.now }
{
    let opener = indentation_of(text, tab, row.mark.at.line);
    let closer = indentation_of(text, tab, row.inner.line);
    GuideRow {
        line,
        column: opener.min(closer),
        level: row.level,
    }
}

/// The indentation of a line, and 0 where there is no such line.
pub fn indentation_of(text: &Text, tab: u32, line: u32) -> u32
    requires some { 1 ≤ tab }
    requires few { tab ≤ MOST_TAB }
    ensures { result ≡ indentation_of tab (lines_of text.now) line }
{
    if line < text.lines() {
        indentation(text.line(line).chars(), tab)
    } else {
        0
    }
}

/// How far the spaces and tabs at the front of a line reach.
fn indentation(line: &[char], tab: u32) -> u32
    requires some { 1 ≤ tab }
    requires few { tab ≤ MOST_TAB }
    requires short { length line.now ≤ 2 ^ 22 }
    ensures { result ≡ indentation tab line.now }
{
    let mut column = 0;
    for c in line {
        match *c {
            ' ' => column += 1,
            '\t' => column = tab_stop(tab, column),
            _ => return column,
        }
    }
    column
}

/// The next column that is a multiple of `tab`.
fn tab_stop(tab: u32, column: u32) -> u32
    requires some { 1 ≤ tab }
    requires few { tab ≤ MOST_TAB }
    requires near { column ≤ 2 ^ 27 }
    ensures stop { result ≡ tab_stop tab column }
    ensures near { result ≤ column + tab }
{
    (column / tab + 1) * tab
}
