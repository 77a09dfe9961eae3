//! The marks of a text's lines, and their pairing by one stack.
#![tactic(auto)]

pub mod mark_lines;
mod open_marks;
pub mod paired;
pub mod pairing_laws;
mod partners;
mod text_marks;

pub use bracket_marks::{BracketRefusal, Brackets, LineMarks, marks_are_texts, marks_rise};
pub use mark_lines::MarkLines;
pub use paired::Paired;
pub use pairing_defs::{BracketText, LineMark, Mark, PairText, PairTexts, Role, Row};
pub use pairing_laws::{
    closers_take_the_last_opener, insides_end_where_closed_off, levels_count_open_rows,
    openers_at_the_limit_have_no_rows, pairs_are_nested, partners_belong_together, rows_are_marks,
};
