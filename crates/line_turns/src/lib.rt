//! The turns of a run over a text by the rules of a grammar, and the runs inside captures.
#![tactic(auto)]

pub mod over;
pub mod run_state;
pub mod turns;

pub use over::Over;
pub use run_state::RunState;
pub use turns::{Around, Then, run, tell_match};
