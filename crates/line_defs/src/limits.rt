//! How many frames may be open, and how deep runs over captures go.

/// A begin rule pushes a frame where fewer are open. The limits of this file are this project's own.
pub const MOST_OPEN: u32 = 1000;

/// How deep runs over captures go within one another.
pub const MOST_LEVELS: u32 = 16;
