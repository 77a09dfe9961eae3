//! Questions that can be asked of a text, what is answered to them, and brackets as they are answered.

use crate::pair_answer::{GuideRows, PairRows, Twin};
use crate::token_answer::TypedTokens;
use text_pos::{Chars, Items, Pos};

/// What can be asked of a text. Lines count from 0, and `to` is the last line of a range. The questions are
/// this project's own.
#[derive(Clone, Copy, Debug, PartialEq, Eq)]
pub enum Question {
    /// The rows of these lines.
    Brackets { from: u32, to: u32 },
    /// The pairs that reach into these lines.
    Pairs { from: u32, to: u32 },
    /// The guides of these lines.
    Guides { from: u32, to: u32 },
    /// The tokens of a line.
    Tokens { line: u32 },
    /// The characters of a line.
    Line { line: u32 },
    /// The bracket at a place and its partner.
    Match { at: Pos },
    /// The closed pair around a place.
    Around { at: Pos },
    /// Where to jump from a place.
    Jump { at: Pos },
    /// How many pairs are open at a place.
    Level { at: Pos },
}

/// A question asks for at most so many lines.
pub const MOST_LINES_OF_A_QUESTION: u32 = 4_096;

/// The most columns that a tab takes, and a tab takes at least one.
pub const MOST_TAB: u32 = 32;

/// Where a mark stands: its line, its first column and the column behind its last.
#[derive(Clone, Copy, Debug, PartialEq, Eq)]
pub struct MarkAt {
    pub line: u32,
    pub from: u32,
    pub to: u32,
}

/// A bracket as it is answered: its place, how many brackets are open around it, how many of these are of its
/// kind (`own`), and the number of its colour. The form is this project's own.
#[derive(Clone, Copy, Debug, PartialEq, Eq)]
pub struct BracketRow {
    pub at: MarkAt,
    pub level: u32,
    pub own: u32,
    pub colour: u32,
}

/// Brackets in order of the text.
pub type Rows = Items<BracketRow>;

/// What is answered to a question. The answers are this project's own.
#[derive(Drop)]
pub enum Answer {
    /// The brackets of the lines that were asked for.
    Brackets(Rows),
    /// The pairs that reach into the lines that were asked for.
    Pairs(PairRows),
    /// The guides of the lines that were asked for.
    Guides(GuideRows),
    /// The tokens of the line, with their scopes and types.
    Tokens(TypedTokens),
    /// The characters of the line.
    Line(Chars),
    /// The bracket at the place and its partner, where there are both.
    Match(Option<Twin>),
    /// The closed pair around the place, where there is one.
    Around(Option<Twin>),
    /// The place to jump to, where there is one.
    Jump(Option<Pos>),
    /// How many pairs are open at the place.
    Level(u32),
}
