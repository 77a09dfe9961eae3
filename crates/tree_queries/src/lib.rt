//! Answers to questions about the brackets of a text, by descents over its tree.
#![tactic(auto)]

pub mod guide_lines;
pub mod jumps;
mod parts;
pub mod places;
pub mod ranges;

pub use answer_defs::{BracketRow, GuideRow, GuideRows, MarkAt, PairRow, PairRows, Rows, Twin};
pub use guide_lines::guides;
pub use jumps::jump;
pub use places::{around, level_at, match_at};
pub use ranges::{brackets, pairs};
