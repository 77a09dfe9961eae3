//! The search of a run over a line: what the patterns of a frame and the injections that hold find from a place on.
#![tactic(auto)]

mod choices;
pub mod find;
mod injected;
mod late;
mod lists;
pub mod searcher;

pub use find::{Find, Match, Of};
pub use searcher::Searcher;
