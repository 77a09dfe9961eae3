//! The fields of a case: bytes, places and edits.
use line_text::Edit;
use std::alloc::{AllocError, Global};
use text_pos::{Pos, Span};

/// What the bytes before say about the next one.
#[derive(Clone, Copy)]
enum Before {
    Plain,
    Backslash,
    Hex,
    HexDigit(u8),
}

/// The value of a digit.
fn digit(byte: u8) -> u8 {
    if byte >= b'A' {
        byte.wrapping_sub(b'A').wrapping_add(10)
    } else {
        byte.wrapping_sub(b'0')
    }
}

/// The byte that a letter behind a backslash stands for.
fn escaped(letter: u8) -> u8 {
    match letter {
        b't' => b'\t',
        b'n' => b'\n',
        b'r' => b'\r',
        other => other,
    }
}

/// The bytes of a field.
fn plain(alloc: Global, field: &str) -> Result<Vec<u8>, AllocError> {
    let mut plain = Vec::new(alloc);
    let mut before = Before::Plain;
    for byte in field.as_bytes() {
        let byte = *byte;
        before = match before {
            Before::Plain if byte == b'\\' => Before::Backslash,
            Before::Plain => {
                plain.push(byte)?;
                Before::Plain
            }
            Before::Backslash if byte == b'x' => Before::Hex,
            Before::Backslash => {
                plain.push(escaped(byte))?;
                Before::Plain
            }
            Before::Hex => Before::HexDigit(digit(byte)),
            Before::HexDigit(high) => {
                plain.push(high.wrapping_mul(16).wrapping_add(digit(byte)))?;
                Before::Plain
            }
        };
    }
    Ok(plain)
}

/// The bytes of a field, copied so often.
pub(crate) fn copies(alloc: Global, field: &str, count: u32) -> Result<Vec<u8>, AllocError> {
    let unit = plain(alloc, field)?;
    let mut all = Vec::new(alloc);
    for _ in 0..count {
        for byte in &unit {
            all.push(*byte)?;
        }
    }
    Ok(all)
}

/// A place, by its line and column.
fn place(field: &str) -> Option<Pos> {
    let (line, col) = field.split_once(':')?;
    let line = line.parse::<u32>().ok()?;
    let col = col.parse::<u32>().ok()?;
    Some(Pos { line, col })
}

/// A span, by its two places.
fn span(field: &str) -> Option<Span> {
    let (from, to) = field.split_once('-')?;
    let from = place(from)?;
    let to = place(to)?;
    Some(Span { from, to })
}

/// An edit whose text is copied so often.
pub(crate) fn edit(alloc: Global, field: &str, count: u32) -> Result<Option<Edit>, AllocError> {
    let Some((places, text)) = field.split_once('=') else {
        return Ok(None);
    };
    let Some(span) = span(places) else {
        return Ok(None);
    };
    let bytes = copies(alloc, text, count)?;
    let Ok(text) = std::str::from_utf8(bytes.as_slice()) else {
        return Ok(None);
    };
    Ok(Some(Edit::new(alloc, span, text)?))
}
