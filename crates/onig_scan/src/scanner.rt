//! Patterns that are searched for together, and the first that matches.

ghost use Rattle.std.specs.Prelude.{◌≡◌, ℕ, ◌+◌, ◌*◌, ◌<◌, ◌≤◌, ◌^◌, All, length, map, slice_get, true, None, IfNone, IfOk, IfSome, IsSomeAnd};
ghost use Rattle.std.specs.Rc.{rc_value};
ghost use Rattle.pattern_defs.specs.declared.outcomes.Flags.{Flags};
ghost use Rattle.pattern_defs.specs.FirstMatch.{pairs_at, first_of, first_match, captures_after};
ghost use Rattle.pattern_defs.specs.Attempt.{capture_of};
ghost use Rattle.onig_match.specs.Works.{IsPart};
ghost use Rattle.onig_scan.specs.Answers.{IsAmong, IfAt};
ghost use Rattle.onig_scan.specs.Rows.{class_of, past_row, AreScalars, IsWordHere, IsRow, IsDecided, GoesOn, IsPassed};

use crate::entry::Entry;
use crate::rows::{ROW_VISITS, rows_at, rows_of};
use onig_match::Work;
use pattern_defs::{Flags, Found, Outcome};
use pattern_tree::Pattern;
use std::alloc::{AllocError, Global};
use std::marker::Model;
use std::rc::Rc;

/// Patterns that are searched for together. They count from 0.
#[derive(Debug, Drop)]
pub struct Scanner {
    entries: Vec<Entry>,
    /// How many words a row has.
    words: usize,
    /// For each kind of place which patterns may match there, 64 in a word, row by row.
    rows: Vec<u64>,
}

impl Model for Scanner {
    ghost use Rattle.std.specs.Prelude.{List};
    ghost use Rattle.pattern_defs.specs.Patterns.{Tree};

    ghost Value = { List Tree };

    ghost view = { λ s. s.entries.items };

    ghost use Rattle.onig_scan.specs.Scanners.{IsScanner};

    ghost invariant = { IsScanner };
}

/// The most groups that one of the patterns has.
fn most_groups(entries: &[Entry]) -> u32
    ensures fits { All (λ tree. tree.groups ≤ result) entries.now }
    ensures least { (room : ℕ) → All (λ tree. tree.groups ≤ room) entries.now → result ≤ room }
{
    let mut most = 0;
    for entry in entries {
        most = entry.groups().max(most);
    }
    most
}

/// What the attempt of one of the patterns decides, if it isn't a miss.
fn decided_by(
    entries: &[Entry],
    index: usize,
    work: &mut Work,
    text: &[char],
    at: u32,
    flags: Flags,
) -> Option<Found>
    requires few { length entries.now < 2 ^ 32 }
    requires there { index < length entries.now }
    requires short { length text.now < 2 ^ 31 }
    requires inside { at ≤ length text.now }
    requires room { All (λ tree. tree.groups ≤ work.old.room) entries.now }
    ensures missed { IfNone result (GoesOn entries.now index (index + 1) at text.now flags work.old work.new) }
    ensures found { IfSome result (IsDecided entries.now index at text.now flags work.old work.new) }
{
    match entries[index].attempt(work, text, at, flags) {
        Outcome::Hit => Some(Found::At {
            index: index as u32,
        }),
        Outcome::Spent => Some(Found::Spent {
            index: index as u32,
            at,
        }),
        Outcome::Miss => None,
    }
}

/// The first of all patterns from a number on that matches at this place.
fn find_in_all(
    entries: &[Entry],
    work: &mut Work,
    text: &[char],
    at: u32,
    flags: Flags,
) -> Option<Found>
    requires few { length entries.now < 2 ^ 32 }
    requires short { length text.now < 2 ^ 31 }
    requires inside { at ≤ length text.now }
    requires room { All (λ tree. tree.groups ≤ work.old.room) entries.now }
    ensures missed { IfNone result (GoesOn entries.now 0 (length entries.now) at text.now flags work.old work.new) }
    ensures found { IfSome result (IsDecided entries.now 0 at text.now flags work.old work.new) }
{
    for index in 0..entries.len() {
        let found = decided_by(entries, index, work, text, at, flags);
        if found.is_some() {
            return found;
        }
    }
    None
}

/// The first of those patterns that matches at this place whose bit is set, of 64 from a number on.
fn find_in_word(
    entries: &[Entry],
    word: u64,
    first: usize,
    work: &mut Work,
    text: &[char],
    at: u32,
    flags: Flags,
) -> Option<Found>
    requires few { length entries.now < 2 ^ 32 }
    requires low { first < 2 ^ 40 }
    requires short { length text.now < 2 ^ 31 }
    requires inside { at ≤ length text.now }
    requires room { All (λ tree. tree.groups ≤ work.old.room) entries.now }
    requires enough { ROW_VISITS ≤ work.old.budget }
    requires word { IsWordHere entries.now text.now at first ROW_VISITS word }
    ensures missed { IfNone result (GoesOn entries.now first (first + 64) at text.now flags work.old work.new) }
    ensures found { IfSome result (IsDecided entries.now first at text.now flags work.old work.new) }
{
    let mut left = word;
    let mut index = first;
    while left != 0 {
        let skipped = left.trailing_zeros();
        index += skipped as usize;
        if index >= entries.len() {
            return None;
        }
        let found = decided_by(entries, index, work, text, at, flags);
        if found.is_some() {
            return found;
        }
        index += 1;
        left = (left >> skipped) >> 1;
    }
    None
}

/// The first of the patterns that matches at this place, by the words of its two rows, which begin at `start` and at
/// `past`.
fn find_in_rows(
    entries: &[Entry],
    rows: &[u64],
    start: usize,
    past: usize,
    words: usize,
    work: &mut Work,
    text: &[char],
    at: u32,
    flags: Flags,
) -> Option<Found>
    requires few { length entries.now < 2 ^ 32 }
    requires small { words < 2 ^ 32 }
    requires all { length entries.now ≤ 64 * words }
    requires within { (start + words ≤ length rows.now) × (past + words ≤ length rows.now) }
    requires short { length text.now < 2 ^ 31 }
    requires inside { at ≤ length text.now }
    requires room { All (λ tree. tree.groups ≤ work.old.room) entries.now }
    requires scalars { AreScalars text.now at }
    requires enough { ROW_VISITS ≤ work.old.budget }
    requires row { IsRow entries.now (class_of (slice_get text.now at)) ROW_VISITS rows.now start words }
    requires before { IsRow entries.now (past_row text.now at) ROW_VISITS rows.now past words }
    ensures missed { IfNone result (GoesOn entries.now 0 (64 * words) at text.now flags work.old work.new) }
    ensures found { IfSome result (IsDecided entries.now 0 at text.now flags work.old work.new) }
{
    for k in 0..words {
        let word = rows[start + k] & rows[past + k];
        let found = find_in_word(entries, word, 64 * k, work, text, at, flags);
        if found.is_some() {
            return found;
        }
    }
    None
}

impl Scanner {
    /// A scanner of these patterns, in this order. They are shared.
    pub fn new(alloc: Global, patterns: &[Rc<Pattern>]) -> Result<Scanner, AllocError>
        requires { length patterns.now < 2 ^ 32 }
        ensures { IfOk result (λ s. s ≡ map rc_value patterns.now) }
    {
        let mut entries = Vec::with_capacity(alloc, patterns.len())?;
        for pattern in patterns {
            entries.push(Entry::of(alloc, pattern)?)?;
        }
        let words = (entries.len() + 63) / 64;
        let rows = rows_of(alloc, entries.as_slice(), words)?;
        Ok(Scanner {
            entries,
            words,
            rows,
        })
    }

    /// The most groups that one of the patterns has.
    pub fn groups(&self) -> u32
        ensures fits { All (λ tree. tree.groups ≤ result) self.now }
        ensures least { (room : ℕ) → All (λ tree. tree.groups ≤ room) self.now → result ≤ room }
    {
        most_groups(&self.entries)
    }

    /// The first of the patterns that matches at this place. Where the budget may not suffice to miss as rows have it,
    /// all are tried.
    fn find_at(&self, work: &mut Work, text: &[char], at: u32, flags: Flags) -> Option<Found>
        requires short { length text.now < 2 ^ 31 }
        requires inside { at ≤ length text.now }
        requires room { All (λ tree. tree.groups ≤ work.old.room) self.now }
        ensures missed { IfNone result (IsPassed self.now at text.now flags work.old work.new) }
        ensures found { IfSome result (IsDecided self.now 0 at text.now flags work.old work.new) }
    {
        if work.budget() < ROW_VISITS {
            return find_in_all(&self.entries, work, text, at, flags);
        }
        let (row, past) = rows_at(text, at);
        find_in_rows(
            &self.entries,
            &self.rows,
            row * self.words,
            past * self.words,
            self.words,
            work,
            text,
            at,
            flags,
        )
    }

    /// Whether no pattern may match at a place, where a row is one word.
    fn is_idle(&self, text: &[char], at: u32, budget: u32) -> bool
        requires inside { at ≤ length text.now }
        ensures { (result ≡ true) → (flags : Flags) →
            first_of (pairs_at 0 self.now at) text.now flags budget ≡ None }
    {
        if self.words != 1 || budget < ROW_VISITS {
            return false;
        }
        let (row, past) = rows_at(text, at);
        self.rows[row] & self.rows[past] == 0
    }

    /// The first match from a place on: places are tried in order, and at each the patterns in order. What the
    /// groups took, `work` tells. Places count characters. The order is that of Oniguruma's scanner in vscode-textmate.
    pub fn find(&self, work: &mut Work, text: &[char], from: u32, flags: Flags) -> Found
        requires short { length text.now < 2 ^ 31 }
        requires inside { from ≤ length text.now }
        requires room { All (λ tree. tree.groups ≤ work.old.room) self.now }
        ensures found { result ≡ first_match self.now text.now from flags work.old.budget }
        ensures work { work.new ≡ record work.old { hit = captures_after self.now text.now from flags work.old.budget work.old.hit } }
        // the pattern that is named is one of these, and the place that is named lies from `from` to the text's end
        ensures names { IsAmong (length self.now) from (length text.now) result }
        ensures groups { IfAt result (λ index. IsSomeAnd (slice_get self.now index)
            (λ tree. length work.new.hit ≡ tree.groups + 1)) }
        // what each group took is a part of the text, and the whole match doesn't begin before `from`
        ensures captures { IfAt result (λ _. (n : ℕ) →
            IfSome (capture_of work.new.hit n) (IsPart (length text.now))) }
        ensures whole { IfAt result (λ _. IsSomeAnd (capture_of work.new.hit 0) (λ place. from ≤ place.from)) }
    {
        let end = text.len() as u32 + 1;
        for at in from..end {
            if self.is_idle(text, at, work.budget()) {
                continue;
            }
            if let Some(found) = self.find_at(work, text, at, flags) {
                return found;
            }
        }
        Found::Nowhere
    }
}
