//! What gives the tokens of a line: the call that the layers above a grammar's run are made for.
#![tactic(auto)]

pub mod line_tokens;
pub mod runs;

pub use line_tokens::LineTokens;
pub use runs::LineRuns;
pub use text_pos::Limits;
