//! The stack of open openers that gives each mark its row, going forward over the text.

ghost use Rattle.std.specs.Prelude.{◌≡◌, ◌<◌, ◌≤◌, ◌+◌, ◌^◌, ◌∷◌, ◌++◌, [], List, ℕ, length, map, reverse, take, slice_index_or, MatchOption, OnOk};
ghost use Rattle.pairing_defs.specs.Marks.{on_line};
ghost use Rattle.pairing_defs.specs.Pairing.{Entry, Placed, of_kind, from_last, opener_row, after_opener, closer_row, left_open, rows_by, open_by, placed_from, open_after};
ghost use Rattle.bracket_lex.specs.Pairing.{Progress, open_in, placed_of};

use pairing_defs::{COLOURS, LineMark, Mark, Role, Row};
use std::alloc::{AllocError, Global};
use std::marker::Model;
use text_pos::{Kinds, Pos};

/// An opener that is open: the number of its row, and its kind.
#[derive(Clone, Copy, Debug, PartialEq, Eq)]
pub(crate) struct OpenMark {
    row: u32,
    kind: u32,
}

impl Model for OpenMark {
    ghost use Rattle.pairing_defs.specs.Pairing.{Entry};

    ghost Value = { Entry };

    ghost view = { λ e. record { row = e.row; kind = e.kind } };

    ghost inverse = { λ e. record { row = e.row; kind = e.kind } };
}

/// The rows so far, and the openers that are open, the last opened last. A row's colour and inner end,
/// and the partner of an opener, are not yet known.
#[derive(Debug, Drop)]
pub(crate) struct OpenMarks {
    limit: u32,
    rows: Vec<Row>,
    entries: Vec<OpenMark>,
}

impl Model for OpenMarks {
    ghost use Rattle.std.specs.Prelude.{◌≤◌, length, map, reverse};
    ghost use Rattle.bracket_lex.specs.Pairing.{Progress, placed_of};

    ghost Value = { Progress };

    ghost view = { λ p. record { limit = p.limit; rows = map placed_of p.rows.items; entries = reverse p.entries.items } };

    ghost invariant = { λ p. length p.entries.items ≤ p.limit };
}

/// How many of the entries are of a kind.
fn count_of_kind(entries: &[OpenMark], kind: u32) -> usize
    ensures count { result ≡ of_kind kind entries.now }
    ensures bound { result ≤ length entries.now }
{
    entries.iter().filter(|e| e.kind == kind).count()
}

/// The place of the last entry of one of the kinds.
fn last_of_kinds(entries: &[OpenMark], kinds: Kinds) -> Option<usize>
    ensures { MatchOption result (from_last kinds (reverse entries.now) ≡ [])
        (λ k. (k < length entries.now) × ((d : Entry) → from_last kinds (reverse entries.now)
        ≡ slice_index_or entries.now k d ∷ reverse (take k entries.now))) }
{
    for k in (0..entries.len()).rev() {
        let entry = &entries[k];
        if kinds.has(entry.kind) {
            return Some(k);
        }
    }
    None
}

/// A row whose colour and inner end are not yet known, and of an opener the partner.
fn unfinished(mark: Mark, level: u32, own: u32, partner: Option<u32>) -> Row
    ensures { placed_of result ≡ record { mark = mark; level = level; own = own; closes = partner } }
{
    Row {
        mark,
        level,
        own,
        colour: COLOURS,
        partner,
        inner: mark.at,
    }
}

impl OpenMarks {
    pub(crate) fn new(alloc: Global, limit: u32) -> OpenMarks
        ensures { result ≡ record { limit = limit; rows = []; entries = [] } }
    {
        OpenMarks {
            limit,
            rows: Vec::new(alloc),
            entries: Vec::new(alloc),
        }
    }

    /// An opener becomes the last open entry. It is text where as many are open as the limit allows.
    fn take_opener(&mut self, mark: Mark, kind: u32) -> Result<(), AllocError>
        requires { length self.old.rows + 1 < 2 ^ 32 }
        ensures limit { self.new.limit ≡ self.old.limit }
        ensures rows { OnOk result (self.new.rows ≡ self.old.rows
            ++ opener_row self.old.limit (open_in self.old) mark kind) }
        ensures entries { OnOk result (self.new.entries
            ≡ (after_opener self.old.limit (open_in self.old) kind).entries) }
    {
        let level = self.entries.len();
        if level >= self.limit as usize {
            return Ok(());
        }
        let own = count_of_kind(&self.entries, kind);
        let row = self.rows.len() as u32;
        self.rows
            .push(unfinished(mark, level as u32, own as u32, None))?;
        self.entries.push(OpenMark { row, kind })?;
        Ok(())
    }

    /// A closer takes the last open entry that it closes, and all after it are no longer open.
    fn take_closer(&mut self, mark: Mark, kinds: Kinds) -> Result<(), AllocError>
        requires { length self.old.rows + 1 < 2 ^ 32 }
        ensures limit { self.new.limit ≡ self.old.limit }
        ensures rows { OnOk result (self.new.rows ≡ self.old.rows
            ++ closer_row (open_in self.old) mark (from_last kinds self.old.entries) ∷ []) }
        ensures entries { OnOk result (self.new.entries
            ≡ left_open self.old.entries (from_last kinds self.old.entries)) }
    {
        match last_of_kinds(&self.entries, kinds) {
            None => {
                let level = self.entries.len() as u32;
                self.rows.push(unfinished(mark, level, 0, None))?;
            }
            Some(k) => {
                let entry = &self.entries[k];
                let closed = Some(entry.row);
                let own = count_of_kind(&self.entries[..k], entry.kind) as u32;
                self.rows.push(unfinished(mark, k as u32, own, closed))?;
                self.entries.truncate(k);
            }
        }
        Ok(())
    }

    /// Takes the next mark of the text.
    fn take(&mut self, mark: Mark) -> Result<(), AllocError>
        requires { length self.old.rows + 1 < 2 ^ 32 }
        ensures limit { self.new.limit ≡ self.old.limit }
        ensures rows { OnOk result (self.new.rows ≡ self.old.rows
            ++ rows_by self.old.limit (open_in self.old) mark mark.role) }
        ensures entries { OnOk result (open_in self.new
            ≡ open_by self.old.limit (open_in self.old) mark.role) }
    {
        match mark.role {
            Role::Opener(kind) => self.take_opener(mark, kind),
            Role::Closer(kinds) => self.take_closer(mark, kinds),
        }
    }

    /// Takes the marks of line n.
    pub(crate) fn take_line(&mut self, n: u32, marks: &[LineMark]) -> Result<(), AllocError>
        requires { length self.old.rows + length marks.now < 2 ^ 32 }
        ensures limit { self.new.limit ≡ self.old.limit }
        ensures rows { OnOk result (self.new.rows ≡ self.old.rows
            ++ placed_from self.old.limit (open_in self.old) (map (on_line n) marks.now)) }
        ensures entries { OnOk result (open_in self.new
            ≡ open_after self.old.limit (open_in self.old) (map (on_line n) marks.now)) }
        ensures bound { OnOk result (length self.new.rows ≤ length self.old.rows + length marks.now) }
    {
        for m in marks {
            self.take(Mark {
                at: Pos {
                    line: n,
                    col: m.from,
                },
                to: m.to,
                role: m.role,
            })?;
        }
        Ok(())
    }

    pub(crate) fn into_rows(self) -> Vec<Row>
        ensures { map placed_of result.items ≡ self.rows }
    {
        self.rows
    }
}
