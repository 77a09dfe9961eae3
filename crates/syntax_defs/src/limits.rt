//! Limits on a pattern text: its characters, nesting, repeats, intervals and lookbehinds.

/// The most characters of a pattern text.
pub const MOST_PATTERN_CHARS: usize = 65_536;

/// The most forms in parentheses and classes, one in another.
pub const MOST_LEVELS: u32 = 100;

/// The most repeats on one item.
pub const MOST_REPEATS: u32 = 8;

/// The greatest number of an interval.
pub const MOST_COUNT: u32 = 100_000;

/// What stands for each number of an interval that is greater.
pub const GREATER_COUNT: u32 = 1_000_000;

/// How far a lookbehind may see, in characters.
pub const MOST_LENGTH: u32 = 16_777_216;
