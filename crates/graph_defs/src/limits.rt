//! How long the active lists of a grammar may be, and how many groups a text that is read later may have.

/// How long all active lists of a grammar may be together: 2^23. The limits of this file are this project's own.
pub const MOST_ACTIVE: u64 = 8_388_608;

/// The most groups that a text which is read later may have: 2^16.
pub const MOST_LATER_GROUPS: u64 = 65_536;
