//! Answers to questions about the brackets of a text, from its rows.
#![tactic(auto)]

ghost use Rattle.std.specs.Prelude.{◌≡◌, IfOk};
ghost use Rattle.answer_defs.specs.Answers.{bracket_row, brackets_in, is_in_lines};

pub mod places;
pub mod ranges;

pub use answer_defs::{
    Answer, BracketRow, GuideRow, GuideRows, MarkAt, PairRow, PairRows, Question, Rows, Twin,
};
use pairing_defs::Row;
pub use places::{around, jump, level_at, match_at};
pub use ranges::{guides, indentation_of, pairs};
use std::alloc::{AllocError, Global};

/// The brackets of the lines `from` to `to`, in order of the text.
pub fn brackets(alloc: Global, rows: &[Row], from: u32, to: u32) -> Result<Rows, AllocError>
    ensures { IfOk result (λ found. found ≡ brackets_in from to rows.now) }
{
    let mut found = Rows::new(alloc);
    for row in rows {
        if is_in_lines(row, from, to) {
            found.push(bracket_row(row))?;
        }
    }
    Ok(found)
}

fn is_in_lines(row: &Row, from: u32, to: u32) -> bool
    ensures { result ≡ is_in_lines from to row.now }
{
    let line = row.mark.at.line;
    from <= line && line <= to
}

fn bracket_row(row: &Row) -> BracketRow
    ensures { result ≡ bracket_row row.now }
{
    let mark = row.mark;
    BracketRow {
        at: MarkAt {
            line: mark.at.line,
            from: mark.at.col,
            to: mark.to,
        },
        level: row.level,
        own: row.own,
        colour: row.colour,
    }
}
