//! Limits on the characters and lines of a text, and on the bytes of a file and of a script line.

/// The most characters that a text may have, its line ends among them: 2^22.
pub const MOST_CHARS: u64 = 4_194_304;

/// The most lines that a text may have: 2^18.
pub const MOST_LINES: u64 = 262_144;

/// The most bytes that a file may have: 2^24.
pub const MOST_FILE_BYTES: u64 = 16_777_216;

/// The most bytes that a line of a script may have: 2^20.
pub const MOST_LINE_BYTES: usize = 1_048_576;
