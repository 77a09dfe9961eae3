//! The most rules that a grammar may have.

/// The most rules that a grammar may have, its top among them: 2^16.
pub const MOST_RULES: u64 = 65_536;
