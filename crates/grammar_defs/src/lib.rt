//! What a grammar file says: definitions, the limit that they cite, and where a byte of such a file stands.
#![tactic(auto)]

pub mod limits;
pub mod stand;

pub use limits::MOST_RULES;
pub use stand::Stand;
