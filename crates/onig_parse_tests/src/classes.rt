//! Cases of escapes and classes.
use char_sets::{CharSet, NamedSets};
use onig_class::{Escaped, dot, one_char, read_class, read_escape};
use std::alloc::{AllocError, Global};
use syntax_defs::{MOST_LEVELS, MOST_PATTERN_CHARS, PatternRefusal};

fn refusal_shown(alloc: Global, refusal: PatternRefusal) -> Result<String, AllocError> {
    match refusal {
        PatternRefusal::Syntax { at } => format!(in alloc; "syntax {at}"),
        PatternRefusal::LeftOut { at } => format!(in alloc; "left out {at}"),
        PatternRefusal::TooDeep { depth } => format!(in alloc; "too deep {depth}"),
        PatternRefusal::TooLong { count } => format!(in alloc; "too long {count}"),
        PatternRefusal::Memory => format!(in alloc; "memory"),
    }
}

/// The place behind what was read, and which of some characters are in its set.
fn set_shown(alloc: Global, set: &CharSet, next: usize, chars: &str) -> Result<String, AllocError> {
    let mut shown = format!(in alloc; "{next} ")?;
    for c in chars.chars() {
        if set.has(c) {
            shown.push(c)?;
        }
    }
    Ok(shown)
}

/// What comes of a class that stands so deep.
pub(crate) fn class_shown(
    alloc: Global,
    text: &str,
    chars: &str,
    fold: bool,
    depth: u32,
) -> Result<String, AllocError> {
    let text: Vec<char> = text.chars().collect(alloc)?;
    if text.len() > MOST_PATTERN_CHARS || depth > MOST_LEVELS || text.get(0).copied() != Some('[') {
        return format!(in alloc; "no class");
    }
    let mut sets = NamedSets::new(alloc);
    match read_class(alloc, &mut sets, &text, 0, fold, depth) {
        Ok((set, next)) => set_shown(alloc, &set, next, chars),
        Err(refusal) => refusal_shown(alloc, refusal),
    }
}

/// What comes of an escape.
pub(crate) fn escape_shown(alloc: Global, text: &str, chars: &str) -> Result<String, AllocError> {
    let text: Vec<char> = text.chars().collect(alloc)?;
    if text.len() > MOST_PATTERN_CHARS || text.get(0).copied() != Some('\\') {
        return format!(in alloc; "no escape");
    }
    let mut sets = NamedSets::new(alloc);
    match read_escape(alloc, &mut sets, &text, 0) {
        Ok((found, next)) => match found {
            Escaped::Char(c) => {
                let code = c as u32;
                format!(in alloc; "{next} is {code}")
            }
            Escaped::Set(set) => set_shown(alloc, &set, next, chars),
        },
        Err(refusal) => refusal_shown(alloc, refusal),
    }
}

/// The set of a letter without regard to its case.
pub(crate) fn letter_shown(alloc: Global, letter: &str, chars: &str) -> Result<String, AllocError> {
    match letter.chars().next() {
        Some(c) => set_shown(alloc, &one_char(alloc, c, true)?, 0, chars),
        None => format!(in alloc; "no letter"),
    }
}

/// The set of the dot.
pub(crate) fn dot_shown(alloc: Global, chars: &str, many: bool) -> Result<String, AllocError> {
    set_shown(alloc, &dot(alloc, many)?, 0, chars)
}
