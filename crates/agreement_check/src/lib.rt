//! Tests, when the program runs, that the marks of two texts agree outside changes, which a parse with nodes of an old
//! tree requires.
#![tactic(auto)]

pub mod agreement;
mod clear;
mod images;
mod kept;
mod laid;
pub mod marked;
mod plain;
mod same;

pub use agreement::agreed;
pub use edit_mapper::{Change, Spans};
pub use marked::are_sound;
