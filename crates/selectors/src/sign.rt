//! The signs of which an entry of a selector is kept: paths, parentheses and partings of alternatives.

use text_pos::{Bytes, Items};

/// The names of a path.
pub(crate) type Names = Items<Bytes>;

/// A part of an entry, as it is kept.
#[derive(Drop)]
pub(crate) enum Sign {
    /// A path, and whether it must hold or must not.
    Path { names: Names, wanted: bool },
    /// A parenthesis that opens.
    Opens,
    /// A parenthesis that closes, and whether what stands inside must hold.
    Closes { wanted: bool },
    /// What parts alternatives.
    Next,
}

/// An entry of a selector.
#[derive(Drop)]
pub(crate) struct KeptEntry {
    pub(crate) priority: i8,
    pub(crate) signs: Items<Sign>,
}
