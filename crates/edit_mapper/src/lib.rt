//! Changes of a text, in order: which place of the old text a place of the new one is, and how far the next change lies.
#![tactic(auto)]

mod lengths;
pub mod mapper;
mod places;
pub mod spans;

pub use change_defs::Change;
pub use mapper::Mapper;
pub use spans::Spans;
