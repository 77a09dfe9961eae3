//! Which texts are brackets, and the marks of a line.
#![tactic(auto)]

pub mod brackets;
mod closed_kinds;
pub mod line_marks;
pub mod mark_laws;
pub mod pairs;
mod standing;
mod texts;
mod type_runs;
mod usual;

pub use brackets::{BracketRefusal, Brackets};
pub use line_marks::LineMarks;
pub use mark_laws::{marks_are_texts, marks_rise};
