//! The tree of a pattern: how its numbered lists of nodes are kept, and put together.
#![tactic(auto)]

mod arena;
pub mod count;
pub mod draft;
pub mod pattern;

pub use count::counted;
pub use draft::PatternDraft;
pub use pattern::Pattern;
pub use pattern_defs::{Anchor, Arm, Arms, ListId, ListIds, PatNode};
