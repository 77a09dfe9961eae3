//! Questions and answers: plain types, and the definitions of what is answered, over rows and a text that are given.
#![tactic(auto)]

pub mod answer;
pub mod pair_answer;
pub mod refusal;
pub mod token_answer;

pub use answer::{Answer, BracketRow, MOST_LINES_OF_A_QUESTION, MOST_TAB, MarkAt, Question, Rows};
pub use pair_answer::{GuideRow, GuideRows, PairRow, PairRows, Twin};
pub use refusal::QuestionRefusal;
pub use token_answer::{TypedToken, TypedTokens};
