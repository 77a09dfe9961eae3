//! Selectors of scopes.
#![tactic(auto)]

mod laws;
pub mod needs;
mod paths;
mod pile;
mod reader;
pub mod refusal;
pub mod selector;
mod sign;
mod verdict;

pub use laws::refusals_are_first_faults;
pub use needs::{Needed, may_meet};
pub use refusal::SelectorRefusal;
pub use selector::Selector;
