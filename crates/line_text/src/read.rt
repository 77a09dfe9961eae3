//! Reading a text from bytes, and why a file is no text.

ghost use Rattle.std.specs.Prelude.{◌≡◌, ℕ, ◌<◌, ◌≤◌, true, false, length, IfOk, OnOk, IfErr};
ghost use Rattle.std.specs.Str.Lossy.{utf8_valid_len};
ghost use Rattle.text_defs.specs.Text.{text_of, is_text, is_utf8, line_count, most_chars, most_lines};

use crate::before::Before;
use crate::draft::Draft;
use crate::size::size_of;
use crate::text::Text;
use std::alloc::{AllocError, Global};
use text_defs::{MOST_CHARS, MOST_LINES};
use thiserror::Error;

/// Why a file is no text. `at` is the place of the first byte that begins no character, in bytes from 0, and a
/// count is what the text would have. The limits and their order are this project's own.
#[derive(Debug, Drop, Error)]
pub enum TextRefusal {
    #[error("NotUtf8")]
    NotUtf8 { at: u64 },
    #[error("TooManyChars")]
    TooManyChars { count: u64 },
    #[error("TooManyLines")]
    TooManyLines { count: u64 },
    #[error("Memory")]
    Memory(AllocError),
}

impl Text {
    ghost use Rattle.line_text.specs.Refusals.{is_memory};

    /// The text of a file. Each of LF, CR LF and a lone CR ends a line, and a U+FEFF at the start falls away.
    pub fn from_bytes(alloc: Global, bytes: &[u8]) -> Result<Text, TextRefusal>
        ensures ok { IfOk result (λ text. text ≡ text_of bytes.now) }
        ensures is_text { OnOk result (is_text bytes.now ≡ true) }
        ensures not_utf8 { (at : ℕ) → result ≡ Err (TextRefusal.NotUtf8 at)
            → (is_utf8 bytes.now ≡ false) × (at ≡ utf8_valid_len bytes.now) }
        ensures too_many_chars { (count : ℕ) → result ≡ Err (TextRefusal.TooManyChars count)
            → (is_utf8 bytes.now ≡ true) × (count ≡ length (text_of bytes.now)) × (most_chars < count) }
        ensures too_many_lines { (count : ℕ) → result ≡ Err (TextRefusal.TooManyLines count)
            → (is_utf8 bytes.now ≡ true) × (length (text_of bytes.now) ≤ most_chars)
            × (count ≡ line_count (text_of bytes.now)) × (most_lines < count) }
        ensures refused { IfErr result (λ fault. is_memory fault ≡ false → is_text bytes.now ≡ false) }
    {
        let text = match std::str::from_utf8(bytes) {
            Ok(text) => text,
            Err(fault) => {
                return Err(TextRefusal::NotUtf8 {
                    at: fault.valid_up_to() as u64,
                });
            }
        };
        let size = size_of(text, Before::FileStart);
        if size.chars > MOST_CHARS {
            return Err(TextRefusal::TooManyChars { count: size.chars });
        }
        if size.lines > MOST_LINES {
            return Err(TextRefusal::TooManyLines { count: size.lines });
        }
        let mut draft = Draft::new(alloc);
        draft
            .put_text(text, Before::FileStart)
            .map_err(TextRefusal::Memory)?;
        draft.finish(size.chars as u32).map_err(TextRefusal::Memory)
    }
}
