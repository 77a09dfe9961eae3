//! Which patterns may match at a place, by the rows of its characters.

ghost use Rattle.std.specs.Prelude.{◌≡◌, ◌+◌, ◌-◌, ◌*◌, ◌/◌, ◌<◌, ◌≤◌, ◌^◌, false, length, slice_get, IfOk, IfSome};
ghost use Rattle.char_sets.specs.Named.{is_word};
ghost use Rattle.pattern_defs.specs.Attempt.{char_before, is_char};
ghost use Rattle.onig_scan.specs.Rows.{class_of as kind_of, past_row, AreScalars, IsSpared, IsWord, AreRows};

use crate::entry::Entry;
use char_sets::is_word_char;
use std::alloc::{AllocError, Global};

/// How many visits an attempt may take where rows are looked at, and a pattern to miss for a row to leave it out.
pub(crate) const ROW_VISITS: u32 = 1000;

/// How many kinds of characters there are: those of ASCII, all others together, and none, at the text's end or beginning.
pub(crate) const CLASSES: usize = 130;

/// A row for each of these at a place, one for each before it, and one for each before it between two word characters.
pub(crate) const ROWS: usize = 390;

fn class_of(c: Option<char>) -> usize
    ensures class { result ≡ kind_of c }
    ensures scalar { IfSome c (λ c. c < 1_114_112) }
    ensures small { result < CLASSES }
{
    match c {
        None => CLASSES - 1,
        Some(c) => {
            let code = c as u32;
            if code < 128 { code as usize } else { 128 }
        }
    }
}

fn is_word_at(c: Option<char>) -> bool
    ensures { result ≡ is_char is_word c }
{
    match c {
        Some(c) => is_word_char(c),
        None => false,
    }
}

/// The character before a place.
fn char_behind(text: &[char], at: u32) -> Option<char>
    requires { at ≤ length text.now }
    ensures { result ≡ char_before text.now at }
{
    if at == 0 {
        None
    } else {
        Some(text[at as usize - 1])
    }
}

/// The two rows of a place: by what stands there, and by what stands before.
pub(crate) fn rows_at(text: &[char], at: u32) -> (usize, usize)
    requires { at ≤ length text.now }
    ensures here { result.0 ≡ kind_of (slice_get text.now at) }
    ensures past { result.1 ≡ past_row text.now at }
    ensures scalars { AreScalars text.now at }
    ensures small { (result.0 < ROWS) × (result.1 < ROWS) }
{
    let next = text.get(at as usize).copied();
    let last = char_behind(text, at);
    let past = CLASSES + class_of(last);
    if is_word_at(last) && is_word_at(next) {
        (class_of(next), past + CLASSES)
    } else {
        (class_of(next), past)
    }
}

/// Whether the pattern of a number, if there is one, may match at the places of a row.
fn may_match_at(entries: &[Entry], index: usize, row: usize) -> bool
    requires row { row < ROWS }
    ensures { (result ≡ false) → IfSome (slice_get entries.now index) (λ tree. IsSpared tree row ROW_VISITS) }
{
    match entries.get(index) {
        Some(entry) => entry.may_match(row),
        None => false,
    }
}

/// Which of 64 patterns may match at the places of a row, a bit for each.
fn word_of(entries: &[Entry], row: usize, first: usize) -> u64
    requires row { row < ROWS }
    requires first { first < 2 ^ 40 }
    ensures { IsWord entries.now row first ROW_VISITS result }
{
    let mut word = 0u64;
    for k in 0..64u32 {
        if may_match_at(entries, first + k as usize, row) {
            word |= 1 << k;
        }
    }
    word
}

/// The words of each row, row by row.
pub(crate) fn rows_of(
    alloc: Global,
    entries: &[Entry],
    words: usize,
) -> Result<Vec<u64>, AllocError>
    requires small { words < 2 ^ 32 }
    ensures size { IfOk result (λ rows. length rows.items ≡ ROWS * words) }
    ensures rows { IfOk result (λ rows. AreRows entries.now words ROW_VISITS rows.items) }
{
    let mut rows = Vec::with_capacity(alloc, ROWS * words)?;
    for k in 0..ROWS * words {
        let word = word_of(entries, k / words, 64 * (k % words));
        rows.push(word)?;
    }
    Ok(rows)
}
