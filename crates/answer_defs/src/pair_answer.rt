//! Pairs, guides and partners as they are answered.

use crate::answer::MarkAt;
use text_pos::{Items, Span};

/// A pair of brackets: its opener, its closer where it has one, how many brackets are open around it, and how many of
/// these are of its kind (`own`). The form is this project's own.
#[derive(Clone, Copy, Debug, PartialEq, Eq)]
pub struct PairRow {
    pub opener: MarkAt,
    pub closer: Option<MarkAt>,
    pub level: u32,
    pub own: u32,
}

/// Where a line of a pair shows its guide. Columns count from 0, with tabs as wide as they are shown. The form is this
/// project's own.
#[derive(Clone, Copy, Debug, PartialEq, Eq)]
pub struct GuideRow {
    pub line: u32,
    pub column: u32,
    pub level: u32,
}

/// Pairs in order of their openers.
pub type PairRows = Items<PairRow>;

/// Guides by line, and in a line by level.
pub type GuideRows = Items<GuideRow>;

/// Two brackets that are partners, from where each starts to where it ends.
#[derive(Clone, Copy, Debug, PartialEq, Eq)]
pub struct Twin {
    pub first: Span,
    pub second: Span,
}
