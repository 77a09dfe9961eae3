//! The fields of a line, and how characters are written there.
use std::alloc::{AllocError, Global};

/// The fields of a line, as the texts that they stand for.
#[derive(Drop)]
pub(crate) struct Fields {
    texts: Vec<String>,
}

impl Fields {
    pub(crate) fn read(alloc: Global, line: &str) -> Result<Fields, AllocError> {
        let mut texts = Vec::new(alloc);
        for field in line.split('\t') {
            texts.push(plain(alloc, field)?)?;
        }
        Ok(Fields { texts })
    }

    /// The field with this number. One that isn't there has no characters.
    pub(crate) fn get(&self, number: usize) -> &str {
        match self.texts.get(number) {
            Some(text) => text.as_str(),
            None => "",
        }
    }
}

/// Where a character of a field stands.
#[derive(Clone, Copy)]
enum Place {
    Plain,
    Escaped,
    Code(u32),
}

/// The place behind a character.
fn read_char(text: &mut String, place: Place, c: char) -> Result<Place, AllocError> {
    match (place, c) {
        (Place::Plain, '\\') => return Ok(Place::Escaped),
        (Place::Plain, c) => text.push(c)?,
        (Place::Escaped, 'u') => return Ok(Place::Code(0)),
        (Place::Escaped, 't') => text.push('\t')?,
        (Place::Escaped, 'n') => text.push('\n')?,
        (Place::Escaped, c) => text.push(c)?,
        (Place::Code(code), '}') => text.push(char::from_u32(code).unwrap_or('\u{fffd}'))?,
        (Place::Code(code), c) => {
            let digit = c.to_digit(16).unwrap_or(0);
            return Ok(Place::Code(code.wrapping_mul(16).wrapping_add(digit)));
        }
    }
    Ok(Place::Plain)
}

/// The text that a field stands for.
fn plain(alloc: Global, field: &str) -> Result<String, AllocError> {
    let mut text = String::new(alloc);
    let mut place = Place::Plain;
    for c in field.chars() {
        place = read_char(&mut text, place, c)?;
    }
    Ok(text)
}

/// How a text is written in a field.
pub(crate) fn written(alloc: Global, text: &str) -> Result<String, AllocError> {
    let mut field = String::new(alloc);
    for c in text.chars() {
        match c {
            '\t' => field.push_str("\\t")?,
            '\n' => field.push_str("\\n")?,
            '\\' => field.push_str("\\\\")?,
            ' '..='~' => field.push(c)?,
            _ => {
                let code = c as u32;
                field.push_str(format!(in alloc; "\\u{{{code:x}}}")?.as_str())?;
            }
        }
    }
    Ok(field)
}
