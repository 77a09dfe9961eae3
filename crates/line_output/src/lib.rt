//! What a run over a line tells: tokens, the scopes of matches, and those of captures in one another.
#![tactic(auto)]

pub mod locals;
pub mod names;
pub mod output;
pub mod taken;

pub use locals::Locals;
pub use output::Output;
pub use taken::Taken;
