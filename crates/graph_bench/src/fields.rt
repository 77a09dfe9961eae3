//! The text of a command's field, with its escapes undone.

use std::alloc::{AllocError, Global};

/// The text of a field, of which some characters are written by two.
pub(crate) fn plain_text(alloc: Global, field: &str) -> Result<String, AllocError> {
    let mut plain = String::new(alloc);
    let mut escaped = false;
    for c in field.chars() {
        if escaped {
            escaped = false;
            plain.push(match c {
                't' => '\t',
                'n' => '\n',
                'r' => '\r',
                other => other,
            })?;
        } else if c == '\\' {
            escaped = true;
        } else {
            plain.push(c)?;
        }
    }
    Ok(plain)
}
