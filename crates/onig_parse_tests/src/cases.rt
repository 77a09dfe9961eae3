//! What each kind of case calls.
use crate::classes::{class_shown, dot_shown, escape_shown, letter_shown};
use crate::fields::{Fields, written};
use crate::patterns::{pattern_shown, repeated_shown};
use crate::sets::{joined_shown, named_shown, other_case_shown, ranges_shown, word_shown};
use std::alloc::{AllocError, Global};

/// What came of a case, as it is written in a line.
pub(crate) fn answer(alloc: Global, fields: &Fields) -> Result<String, AllocError> {
    let shown = match set_case(alloc, fields)? {
        Some(shown) => shown,
        None => text_case(alloc, fields)?,
    };
    written(alloc, shown.as_str())
}

/// A case of sets alone.
fn set_case(alloc: Global, fields: &Fields) -> Result<Option<String>, AllocError> {
    let (first, second) = (fields.get(1), fields.get(2));
    let shown = match fields.get(0) {
        "named" => named_shown(alloc, first, second)?,
        "word" => word_shown(alloc, first)?,
        "ranges" => ranges_shown(alloc, first, second)?,
        "join" => joined_shown(alloc, first, second, fields.get(3))?,
        "other case" => other_case_shown(alloc, first, second)?,
        "letter" => letter_shown(alloc, first, second)?,
        "dot" => dot_shown(alloc, first, false)?,
        "dot of all" => dot_shown(alloc, first, true)?,
        _ => return Ok(None),
    };
    Ok(Some(shown))
}

/// A case of a text that is read.
fn text_case(alloc: Global, fields: &Fields) -> Result<String, AllocError> {
    let (first, second, third) = (fields.get(1), fields.get(2), fields.get(3));
    match fields.get(0) {
        "escape" => escape_shown(alloc, first, second),
        "class" => class_shown(alloc, second, third, false, number(first)),
        "folded class" => class_shown(alloc, second, third, true, number(first)),
        "pattern" => pattern_shown(alloc, first),
        "repeated" => repeated_shown(alloc, first, number(second), third),
        _ => String::from_str(alloc, "no case"),
    }
}

fn number(field: &str) -> u32 {
    field.parse::<u32>().unwrap_or(u32::MAX)
}
