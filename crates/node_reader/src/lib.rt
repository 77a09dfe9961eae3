//! Reads the nodes of a tree of brackets that start at rising offsets: at each the longest that can be reused there, as
//! the reader of nodes of VS Code's bracketPairsTree does.
#![tactic(auto)]

pub mod ask;
pub mod laws;
mod parts;
mod place;
pub mod reader;

pub use ask::Ask;
pub use laws::the_longest_is_found;
pub use reader::Reader;
