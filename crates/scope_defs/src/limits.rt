//! Limits on the names of a list of scopes, the frames of a stack and the nesting of a selector.

/// The most names of a list of scopes. The limits of this file are this project's own.
pub const MOST_NAMES: u32 = 1048576;

/// The most frames of a stack.
pub const MOST_FRAMES: u32 = 2000;

/// The most parentheses and minus signs that an operand of a selector may stand in.
pub const MOST_NESTED: u32 = 100;
