//! Parses the marks of a text to a tree of brackets, as VS Code's bracketPairsTree does.
#![tactic(auto)]

mod gather;
pub mod laws;
mod list;
mod old;
mod place;
mod relist;
pub mod whole;

pub use laws::{new_nodes_add, old_nodes_add};
pub use whole::{parse, reparse};
