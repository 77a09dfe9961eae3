//! An edit, and why a batch of edits is refused.

ghost use Rattle.std.specs.Prelude.{◌≡◌, IfOk};
ghost use Rattle.std.specs.Str.{chars};

use std::alloc::{AllocError, Global};
use std::marker::Model;
use text_pos::Span;
use thiserror::Error;

/// An edit: its characters take the place of a span. Clauses see the span, and the characters as they were
/// given.
#[derive(Debug, Drop)]
pub struct Edit {
    span: Span,
    text: String,
}

impl Model for Edit {
    ghost use Rattle.std.specs.Prelude.{string_bytes};
    ghost use Rattle.std.specs.Str.{chars};
    ghost use Rattle.text_defs.specs.Batch.{TextEdit};

    ghost Value = { TextEdit };

    ghost view = { λ edit. record { span = edit.span; text = chars (string_bytes edit.text) } };
}

impl Edit {
    /// An edit by which these characters take the place of the span.
    pub fn new(alloc: Global, span: Span, text: &str) -> Result<Edit, AllocError>
        ensures span { IfOk result (λ edit. edit.span ≡ span) }
        ensures text { IfOk result (λ edit. edit.text ≡ chars text.now) }
    {
        Ok(Edit {
            span,
            text: String::from_str(alloc, text)?,
        })
    }

    pub fn span(&self) -> Span
        ensures { result ≡ self.now.span }
    {
        self.span
    }

    pub fn text(&self) -> &str
        ensures { chars result.now ≡ self.now.text }
    {
        self.text.as_str()
    }
}

/// Why a batch of edits is refused, by this project's own rules. An index is that of an edit, from 0, and a count is what the new text
/// would have; a count that no u64 holds is the largest u64.
#[derive(Debug, Drop, Error)]
pub enum EditRefusal {
    #[error("Range")]
    Range { index: u64 },
    #[error("Order")]
    Order { index: u64 },
    #[error("TooManyChars")]
    TooManyChars { count: u64 },
    #[error("TooManyLines")]
    TooManyLines { count: u64 },
    #[error("Memory")]
    Memory(AllocError),
}
