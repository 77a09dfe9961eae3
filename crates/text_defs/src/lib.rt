//! What a text, its lines, its places and a batch of edits are: definitions, and the limits that they cite.
#![tactic(auto)]

pub mod limits;

pub use limits::{MOST_CHARS, MOST_FILE_BYTES, MOST_LINE_BYTES, MOST_LINES};
