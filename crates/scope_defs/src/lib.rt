//! Scopes, their standard types, selectors, and the frames of a run: plain types and limits, and the definitions that
//! the crates of scopes and of the line machine share.
#![tactic(auto)]

pub mod limits;
pub mod types;

pub use limits::{MOST_FRAMES, MOST_NAMES, MOST_NESTED};
pub use types::{RuleId, StdType, TypeRun};
