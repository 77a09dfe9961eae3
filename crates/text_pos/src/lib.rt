//! Places, lengths, sets of kinds, and the small lists and names that the other crates share.
#![tactic(auto)]

pub mod kinds;
pub mod length;
pub mod limits;
pub mod lists;
pub mod name;

pub use kinds::Kinds;
pub use length::{Length, Pos, Span, add, at, is_zero, length_to, less, minus};
pub use limits::Limits;
pub use lists::{Bytes, Chars, Items};
pub use name::Name;
