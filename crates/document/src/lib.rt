//! The whole state of an open text, as one value.
#![tactic(auto)]

mod answers;
pub mod document;
mod lines;
mod refusals;
pub mod summary;

pub use document::{AskRefusal, Document};
pub use generator_defs::Made;
pub use summary::summary_of;
