//! Joins nodes of the tree of brackets to one tree, in order: a balanced 2-3 list, as in VS Code's bracketPairsTree.
#![tactic(auto)]

mod grow;
pub mod joining;
mod level;
mod lists;

pub use joining::join;
