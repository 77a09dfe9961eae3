//! The rules of a grammar with resolved includes and read patterns, by their numbers, and its injections.
#![tactic(auto)]

pub mod injection;
pub mod rule;
pub mod scope_text;
pub mod table;

pub use injection::{Injection, Injections};
pub use pattern_tree::Pattern;
pub use rule::{Rule, RuleCapture, RuleCaptures, RuleIds, RuleKind, Slot};
pub use scope_defs::RuleId;
pub use scope_text::ScopeText;
pub use table::{MOST_RULES, RuleTable};
