//! Script lines read as commands, and replies written as lines.
#![tactic(auto)]

pub mod command;
pub mod refusal;
pub mod reply;

pub use answer_defs::{
    Answer, BracketRow, GuideRow, GuideRows, MarkAt, PairRow, PairRows, Question, Rows, Twin,
    TypedToken, TypedTokens,
};
pub use command::{Command, CommandRefusal};
pub use generator_defs::Made;
pub use line_text::{Edit, Edits};
pub use refusal::Refusal;
pub use reply::Reply;
