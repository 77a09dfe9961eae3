//! How many marks are fresh after changes, counted one by one.
ghost use Rattle.std.specs.Prelude.{◌≡◌, ◌<◌, ◌^◌, length};
ghost use Rattle.bracket_marks.specs.MarkedLine.{marks_in};

use bracket_lex::{MarkLines, Paired, Role, Row};
use text_pos::{Length, less};

/// A change with its ends in both texts.
#[derive(Clone, Copy, Debug)]
pub(crate) struct Ends {
    pub(crate) old_from: Length,
    pub(crate) old_to: Length,
    pub(crate) new_from: Length,
    pub(crate) new_to: Length,
}

pub(crate) fn count_marks(lines: &MarkLines) -> u64 {
    let mut count = 0u64;
    for line in lines.iter() {
        count = count.saturating_add(line.get().marks().len() as u64);
    }
    count
}

/// How many marks aren't clear of what changes put in.
fn count_new(lines: &MarkLines, ends: &[Ends]) -> u64 {
    let mut count = 0u64;
    let mut lines_before = 0u32;
    for line in lines.iter() {
        for mark in line.get().marks() {
            let from = Length {
                lines: lines_before,
                cols: mark.from,
            };
            let to = Length {
                lines: lines_before,
                cols: mark.to,
            };
            if ends
                .iter()
                .any(|e| less(e.new_from, to) && less(from, e.new_to))
            {
                count = count.saturating_add(1);
            }
        }
        lines_before = lines_before.saturating_add(1);
    }
    count
}

/// Whether the pair of a row that opens meets or touches a change.
fn is_met(rows: &[Row], row: &Row, ends: &[Ends]) -> bool {
    let Role::Opener(_) = row.mark.role else {
        return false;
    };
    let Some(partner) = row.partner else {
        return false;
    };
    let Some(closer) = rows.get(partner as usize) else {
        return false;
    };
    let from = Length {
        lines: row.mark.at.line,
        cols: row.mark.at.col,
    };
    let to = Length {
        lines: closer.mark.at.line,
        cols: closer.mark.to,
    };
    ends.iter()
        .any(|e| !less(e.old_to, from) && !less(to, e.old_from))
}

/// How many marks are fresh, where all old marks have partners and each new opener has a row.
pub(crate) fn count_fresh(
    old: &MarkLines,
    new: &MarkLines,
    old_rows: &Paired,
    new_rows: &Paired,
    ends: &[Ends],
) -> Option<u64> {
    let rows = old_rows.rows();
    if rows.len() as u64 != count_marks(old)
        || new_rows.rows().len() as u64 != count_marks(new)
        || rows.iter().any(|row| row.partner.is_none())
    {
        return None;
    }
    let mut met = 0u64;
    for row in rows {
        if is_met(rows, row, ends) {
            met = met.saturating_add(2);
        }
    }
    Some(met.saturating_add(count_new(new, ends)))
}
