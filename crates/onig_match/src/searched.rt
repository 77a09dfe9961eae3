//! What an attempt is about.

use pattern_defs::Flags;
use pattern_tree::Pattern;

/// What an attempt is about.
#[derive(Clone, Copy)]
pub(crate) struct Searched<'a> {
    pub(crate) pattern: &'a Pattern,
    pub(crate) text: &'a [char],
    pub(crate) flags: Flags,
}
