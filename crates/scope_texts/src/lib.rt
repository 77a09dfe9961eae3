//! What scope texts and end texts stand for after a match: with captured texts for their forms and references.
#![tactic(auto)]

mod captures;
mod digits;
pub mod ends;
mod form;
pub mod names;

pub use ends::end_text;
pub use names::scope_text;
