//! Escapes and classes of patterns, read from their text.
#![tactic(auto)]

mod class;
mod escape;
mod hex;
mod items;
mod names;
mod sets;
mod sides;

pub use class::read_class;
pub use escape::{Escaped, read_escape};
pub use sets::{dot, one_char};
