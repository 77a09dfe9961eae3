//! Stacks of open rules, the states between lines, and tokens.
#![tactic(auto)]

pub mod end_text;
pub mod frame;
mod numbers;
pub mod stack;
pub mod state;
pub mod token;

pub use end_text::EndText;
pub use frame::Frame;
pub use scope_defs::{MOST_FRAMES, MOST_NAMES, RuleId, StdType, TypeRun};
pub use scope_names::{NamesBack, Scopes, SharedName};
pub use stack::Stack;
pub use state::State;
pub use token::{Token, TokenRows};
