//! A text kept as lines, and the batches of edits that change it.
//!
//! Which ends a line has, what a place is and how a batch replaces its spans is this project's own; the
//! definitions stand in `text_defs`, and those of the lines that a batch carries in `specs/Carried`.
#![tactic(auto)]

pub mod batch;
mod before;
pub mod carry;
mod draft;
pub mod edit;
pub mod edits;
pub mod read;
mod size;
pub mod text;

pub use batch::Edited;
pub use carry::{Carry, Run};
pub use edit::{Edit, EditRefusal};
pub use edits::Edits;
pub use read::TextRefusal;
pub use text::{Line, Text};
