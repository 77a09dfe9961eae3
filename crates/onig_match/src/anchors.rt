//! Whether an anchor holds at a place.

ghost use Rattle.std.specs.Prelude.{◌≡◌, ◌<◌, ◌≤◌, ◌^◌, ◌==◌, length, slice_get, Option, Some, None, IsSome};
ghost use Rattle.char_sets.specs.Named.{is_word};
ghost use Rattle.pattern_defs.specs.Patterns.{NodeLists};
ghost use Rattle.pattern_defs.specs.Attempt.{char_before, is_char, is_line_feed, is_word_edge, holds_at};

use char_sets::is_word_char;
use pattern_defs::{Anchor, Flags};

/// The character at a place.
pub(crate) fn char_at(text: &[char], at: u32) -> Option<char>
    ensures { result ≡ slice_get text.now at }
{
    if (at as usize) < text.len() {
        Some(text[at as usize])
    } else {
        None
    }
}

fn char_behind(text: &[char], at: u32) -> Option<char>
    ensures { result ≡ char_before text.now at }
{
    if at == 0 { None } else { char_at(text, at - 1) }
}

fn is_feed(c: Option<char>) -> bool
    ensures { result ≡ is_line_feed c }
{
    match c {
        Some(c) => c == '\n',
        None => false,
    }
}

fn is_word_at(c: Option<char>) -> bool
    ensures { result ≡ is_char is_word c }
{
    match c {
        Some(c) => is_word_char(c),
        None => false,
    }
}

fn is_edge(text: &[char], at: u32) -> bool
    ensures { result ≡ is_word_edge (is_char is_word (char_before text.now at)) (is_char is_word (slice_get text.now at)) }
{
    let next = is_word_at(char_at(text, at));
    if is_word_at(char_behind(text, at)) {
        !next
    } else {
        next
    }
}

fn is_mark(anchor: Option<u32>, at: u32) -> bool
    ensures { result ≡ is_char (λ n. n == at) anchor }
{
    match anchor {
        Some(place) => place == at,
        None => false,
    }
}

/// Whether an anchor holds at a place.
pub(crate) fn holds(anchor: Anchor, text: &[char], at: u32, flags: Flags) -> bool
    requires { at ≤ length text.now }
    ensures { (lists : NodeLists) →
        result ≡ holds_at anchor (record { lists = lists; text = text.now; flags = flags }) at }
{
    let end = text.len();
    let place = at as usize;
    match anchor {
        Anchor::LineStart => at == 0 || (is_feed(char_behind(text, at)) && place < end),
        Anchor::LineEnd => place == end || is_feed(char_at(text, at)),
        Anchor::First => at == 0 && flags.first,
        Anchor::Mark => is_mark(flags.anchor, at),
        Anchor::End => place == end && !is_feed(char_behind(text, at)),
        Anchor::LastEnd => place == end || (place + 1 == end && is_feed(char_at(text, at))),
        Anchor::WordEdge => is_edge(text, at),
        Anchor::NoWordEdge => !is_edge(text, at),
    }
}
