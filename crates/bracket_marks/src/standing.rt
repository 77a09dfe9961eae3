//! Whether a bracket's text stands at a column, in tokens that count, and cuts no word.

ghost use Rattle.std.specs.Prelude.{◌≡◌, ◌≤◌, ◌+◌, length, slice_get};
ghost use Rattle.pairing_defs.specs.Marks.{all_count, char_before, counts_by, cuts_no_word, is_word_char, stands_at};

use crate::type_runs::all_count;
use char_sets::is_word_char;
use pairing_defs::BracketText;
use scope_defs::TypeRun;

/// Whether a text stands at a column of a line, in tokens that count, and cuts no word there.
pub(crate) fn stands(b: &BracketText, line: &[char], types: &[TypeRun], column: usize) -> bool
    requires { column ≤ length line.now }
    ensures { result ≡ stands_at (counts_by types.now) line.now column b.now }
{
    let text = b.text.as_slice();
    !text.is_empty()
        && line[column..].starts_with(text)
        && all_count(types, column, text.len())
        && cuts_no_word(line, column, text)
}

/// Whether no word goes on over the edges of a text that stands at a column.
fn cuts_no_word(line: &[char], column: usize, text: &[char]) -> bool
    requires { column + length text.now ≤ length line.now }
    ensures { result ≡ cuts_no_word line.now column text.now }
{
    let front = is_word(text.first().copied()) && is_word(char_before(line, column));
    let end = column + text.len();
    let back = is_word(char_before(text, text.len())) && is_word(line.get(end).copied());
    !front && !back
}

fn is_word(c: Option<char>) -> bool
    ensures { result ≡ is_word_char c }
{
    match c {
        Some(c) => is_word_char(c),
        None => false,
    }
}

/// The character before a column.
fn char_before(line: &[char], column: usize) -> Option<char>
    ensures { result ≡ char_before line.now column }
{
    if column == 0 {
        None
    } else {
        line.get(column - 1).copied()
    }
}
