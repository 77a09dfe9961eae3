//! Where a byte of JSON with comments stands: in a string, in a comment, or outside both.

/// Where a byte of JSON with comments stands.
#[derive(Clone, Copy, Debug, PartialEq, Eq)]
pub enum Stand {
    /// Outside strings and comments.
    Outside,
    /// In a string.
    Text,
    /// In a string, behind a backslash.
    Escaped,
    LineComment,
    /// The second byte of what opens a comment of several lines.
    Opens,
    BlockComment,
    /// The second byte of what closes it.
    Closes,
}
