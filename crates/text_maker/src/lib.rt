//! The text and the edits of the generator, which `generator_defs` defines.
#![tactic(auto)]

mod edits;
mod laws;
mod pieces;
mod texts;

pub use edits::make_edit;
pub use laws::made_edits_are_accepted;
pub use texts::make_text;
