//! Why a text is no pattern.

ghost use Rattle.std.specs.Prelude.{◌≡◌};
ghost use Rattle.syntax_defs.specs.declared.refusal.PatternRefusal.TheVariants.{Memory};

use std::alloc::{AllocError, AllocFailed};
use thiserror::Error;

/// Why a text is no pattern. Places count characters from 0. The forms are those of Oniguruma's RE with Ruby
/// syntax; the limits, and which forms are left out, are this project's own.
#[derive(Debug, Drop, Error)]
pub enum PatternRefusal {
    /// The item that begins here can't be read, or the text ends where something isn't closed.
    #[error("Syntax")]
    Syntax { at: u64 },
    /// The item that begins here is of a form that is left out.
    #[error("LeftOut")]
    LeftOut { at: u64 },
    /// Groups and classes nest so deep, or so many repeats stand on one item.
    #[error("TooDeep")]
    TooDeep { depth: u64 },
    /// The text has so many characters.
    #[error("TooLong")]
    TooLong { count: u64 },
    #[error("Memory")]
    Memory,
}

impl From<AllocError> for PatternRefusal {
    ghost from_gives = { λ _ e. e ≡ Memory };

    fn from(_e: AllocError) -> PatternRefusal {
        PatternRefusal::Memory
    }
}

impl<T: Drop> From<AllocFailed<T>> for PatternRefusal {
    ghost from_gives = { λ _ e. e ≡ Memory };

    fn from(_e: AllocFailed<T>) -> PatternRefusal {
        PatternRefusal::Memory
    }
}
