//! Patterns as numbered lists of nodes, and the definitions of what an attempt and a search answer: plain types
//! that the crates of patterns share.
#![tactic(auto)]

pub mod lists;
pub mod nodes;
pub mod outcomes;

pub use lists::{Arms, ListIds};
pub use nodes::{Anchor, Arm, ListId, PatNode};
pub use outcomes::{Flags, Found, Outcome, Place};
