//! Why a text is no selector.

ghost use Rattle.std.specs.Prelude.{◌≡◌};
ghost use Rattle.selectors.specs.declared.refusal.SelectorRefusal.TheVariants.{Memory};

use std::alloc::{AllocError, AllocFailed};
use thiserror::Error;

/// Why a text is no selector.
#[derive(Debug, Drop, Error)]
pub enum SelectorRefusal {
    /// The character at this place, counted from 0, or the end of the text isn't what a selector has there.
    #[error("Syntax")]
    Syntax { at: u64 },
    #[error("Memory")]
    Memory,
}

impl From<AllocError> for SelectorRefusal {
    ghost from_gives = { λ _ e. e ≡ Memory };

    fn from(_e: AllocError) -> SelectorRefusal {
        SelectorRefusal::Memory
    }
}

impl<T: Drop> From<AllocFailed<T>> for SelectorRefusal {
    ghost from_gives = { λ _ e. e ≡ Memory };

    fn from(_e: AllocFailed<T>) -> SelectorRefusal {
        SelectorRefusal::Memory
    }
}
