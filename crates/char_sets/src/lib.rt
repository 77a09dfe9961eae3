//! Sets of characters, kept as ranges.
#![tactic(auto)]

mod algebra;
mod bits;
pub mod char_set;
mod codes;
pub mod named;
pub mod named_sets;
mod ranges;
mod stretch;

pub use char_set::{CharRange, CharSet};
pub use named::{NamedSet, is_word_char};
pub use named_sets::NamedSets;
