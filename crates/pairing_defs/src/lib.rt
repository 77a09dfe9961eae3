//! Marks, their pairing by one stack, and rows: plain types, and the definitions of what they mean.
#![tactic(auto)]

use text_pos::{Chars, Items, Kinds, Name, Pos};

/// How many colours brackets with a partner have, in turn by their levels. A bracket without partner has the one behind
/// these.
pub const COLOURS: u32 = 6;

/// The most texts that open or close, of each.
pub const MOST_KINDS: u64 = 64;

/// The most characters of a text that is a bracket.
pub const MOST_BRACKET_CHARS: u64 = 32;

/// What a bracket does: it opens a kind, or closes some kinds. A kind is the number of an opener's text.
#[derive(Clone, Copy, Debug, PartialEq, Eq)]
pub enum Role {
    Opener(u32),
    Closer(Kinds),
}

/// Two texts that are brackets of each other, as a file names them.
#[derive(Debug, Drop)]
pub struct PairText {
    pub opener: Name,
    pub closer: Name,
}

/// Pairs of texts in the order of their file.
pub type PairTexts = Items<PairText>;

/// A text that is a bracket wherever it stands.
#[derive(Debug, Drop)]
pub struct BracketText {
    pub text: Chars,
    pub role: Role,
}

/// A bracket in a line, from its first column to the column behind its last.
#[derive(Clone, Copy, Debug, PartialEq, Eq)]
pub struct LineMark {
    pub from: u32,
    pub to: u32,
    pub role: Role,
}

/// A bracket in a text: where it starts, and the column behind its last.
#[derive(Clone, Copy, Debug, PartialEq, Eq)]
pub struct Mark {
    pub at: Pos,
    pub to: u32,
    pub role: Role,
}

/// A mark that counts as a bracket.
#[derive(Clone, Copy, Debug, PartialEq, Eq)]
pub struct Row {
    pub mark: Mark,
    /// How many brackets are open around it.
    pub level: u32,
    /// How many of its own kind are: its kind level.
    pub own: u32,
    /// The level modulo [`COLOURS`], and [`COLOURS`] for a bracket without partner.
    pub colour: u32,
    /// The number of its partner's row.
    pub partner: Option<u32>,
    /// Of an opener: where its inside ends. Of a closer: where it starts.
    pub inner: Pos,
}
