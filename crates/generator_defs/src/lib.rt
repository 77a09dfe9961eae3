//! The generator: the text and the edits that it makes of a number, and what is told of a text in passing. Definitions,
//! and the limits and the plain type that they cite. All of it is this project's own.
#![tactic(auto)]

/// The most lines that a generated text has at first.
pub const MOST_GENERATED_LINES: u32 = 100_000;

/// So many pieces, of one character each, make a line at first.
pub const PIECES_OF_A_LINE: u32 = 12;

/// So many edits are made, one after the other. They are numbered from 1.
pub const GENERATED_EDITS: u32 = 200;

/// A summary is told of the text at first, and behind each so many edits.
pub const EDITS_OF_A_SUMMARY: u32 = 50;

/// What is told of a text.
#[derive(Clone, Copy, Debug, PartialEq, Eq)]
pub struct Made {
    /// How many lines the text has.
    pub lines: u32,
    /// How many rows the pairing of its marks has.
    pub rows: u32,
    /// How many of these have no partner.
    pub bad: u32,
    /// One more than the greatest level of a row, and 0 without rows.
    pub deepest: u32,
}
