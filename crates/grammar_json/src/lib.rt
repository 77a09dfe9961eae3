//! Grammar files and bracket files, read from JSON.
#![tactic(auto)]

pub mod brackets;
mod capture_key;
pub mod count;
pub mod fault;
pub mod file_rules;
pub mod grammar;
mod json;
pub mod loosening;
pub mod named;
pub mod rules;
pub mod texts;

pub use brackets::{PairRefusal, read_brackets};
pub use file_rules::{Capture, Captures, Entries, Entry, RawRule};
pub use grammar::{Grammar, GrammarRefusal, read_grammar};
pub use loosening::loosen;
pub use named::{NamedRule, NamedRules};
pub use pairing_defs::{PairText, PairTexts};
