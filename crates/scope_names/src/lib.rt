//! Scopes: shared lists of names, with their standard type.
#![tactic(auto)]

pub mod keys;
pub mod numbers;
mod piece;
pub mod scopes;
pub mod shared_name;
mod words;

pub use scopes::{NamesBack, Scopes};
pub use shared_name::SharedName;
