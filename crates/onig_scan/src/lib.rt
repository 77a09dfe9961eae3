//! Searches over several patterns at once.
#![tactic(auto)]

mod bound;
mod entry;
mod front;
mod front_of;
pub mod laws;
mod past;
mod rows;
pub mod scanner;

pub use laws::a_greater_budget_changes_no_match;
pub use pattern_defs::{Flags, Found, Outcome, Place};
pub use scanner::Scanner;
