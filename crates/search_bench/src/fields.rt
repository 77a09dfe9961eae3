//! The characters of a command's field, some of which are written with a backslash.

use std::alloc::{AllocError, Global};

/// The characters of a field, of which some are written by two.
pub(crate) fn plain(alloc: Global, field: &str) -> Result<Vec<char>, AllocError> {
    let mut plain = Vec::new(alloc);
    let mut escaped = false;
    for c in field.chars() {
        if escaped {
            escaped = false;
            plain.push(match c {
                't' => '\t',
                'n' => '\n',
                'r' => '\r',
                other => other,
            })?;
        } else if c == '\\' {
            escaped = true;
        } else {
            plain.push(c)?;
        }
    }
    Ok(plain)
}

/// The same as a text.
pub(crate) fn plain_text(alloc: Global, field: &str) -> Result<String, AllocError> {
    let mut text = String::new(alloc);
    for c in plain(alloc, field)?.iter() {
        text.push(*c)?;
    }
    Ok(text)
}
