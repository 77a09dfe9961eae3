//! A source of marks, which gives the marks of a text from its place on, one after the other.
#![tactic(auto)]

pub mod laws;
pub mod reader;
pub mod source;
mod spot;

pub use laws::texts_have_marked_lines;
pub use reader::MarkReader;
pub use source::MarkSource;
