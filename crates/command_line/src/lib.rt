//! The words of the command line, and what they ask for, which `session_defs` defines.
#![tactic(auto)]

pub mod words;

pub use words::{Request, Subject, read_words};
