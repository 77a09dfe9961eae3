//! What the rules of a grammar are: their numbers, kinds, patterns and captures, what stands in their lists, and which
//! rules are searched inside each. Definitions, and the limits that they cite.
#![tactic(auto)]

pub mod limits;

pub use limits::{MOST_ACTIVE, MOST_LATER_GROUPS};
