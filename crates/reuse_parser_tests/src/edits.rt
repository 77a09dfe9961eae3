//! Texts of brackets, words, letters and line ends, and their changes, as numbers tell.
ghost use Rattle.std.specs.Prelude.{◌<◌};

use crate::fresh::Ends;
use agreement_check::Change;
use std::alloc::{AllocError, Global};
use text_pos::Length;

/// Numbers one after the other, each made of the one before.
#[derive(Drop)]
pub(crate) struct Numbers {
    state: u64,
}

impl Numbers {
    pub(crate) fn new(seed: u64) -> Numbers {
        Numbers { state: seed }
    }

    /// The next number below a bound.
    pub(crate) fn below(&mut self, bound: u32) -> u32
        requires { 0 < bound }
        ensures { result < bound }
    {
        self.state = self
            .state
            .wrapping_mul(6_364_136_223_846_793_005)
            .wrapping_add(1_442_695_040_888_963_407);
        let high = (self.state >> 33) as u32;
        high % bound
    }
}

/// What a text is made of. Two pieces that are words, or signs that could be one, have a space between them.
#[derive(Clone, Copy, PartialEq, Eq)]
pub(crate) enum Piece {
    Open(u32),
    Close(u32),
    Other(u32),
}

const SPACE: Piece = Piece::Other(1);

/// The openers and closers, each pair by its number.
pub(crate) const PAIRS: [&str; 14] = [
    "(", ")", "[", "]", "{", "}", "do", "end", "if", "end", "if", "fi", "<<", ">>",
];

impl Piece {
    pub(crate) fn text(self) -> &'static str {
        match self {
            Piece::Open(0) => "(",
            Piece::Open(1) => "[",
            Piece::Open(2) => "{",
            Piece::Open(3) => "do",
            Piece::Open(4) | Piece::Open(5) => "if",
            Piece::Open(_) => "<<",
            Piece::Close(0) => ")",
            Piece::Close(1) => "]",
            Piece::Close(2) => "}",
            Piece::Close(3) | Piece::Close(4) => "end",
            Piece::Close(5) => "fi",
            Piece::Close(_) => ">>",
            Piece::Other(0) => "\n",
            Piece::Other(1) => " ",
            Piece::Other(2) => "endo",
            Piece::Other(_) => "x",
        }
    }

    /// Whether it may be one word or sign with what stands beside it.
    fn sticks(self) -> bool {
        match self {
            Piece::Open(kind) | Piece::Close(kind) => kind > 2,
            Piece::Other(kind) => kind > 1,
        }
    }

    fn length(self) -> Length {
        if self == Piece::Other(0) {
            return Length { lines: 1, cols: 0 };
        }
        let mut cols = 0u32;
        for _ in self.text().chars() {
            cols = cols.saturating_add(1);
        }
        Length { lines: 0, cols }
    }

    fn by(numbers: &mut Numbers) -> Piece {
        match numbers.below(3) {
            0 => Piece::Open(numbers.below(7)),
            1 => Piece::Close(numbers.below(7)),
            _ => Piece::Other(numbers.below(4)),
        }
    }
}

fn sum(a: Length, b: Length) -> Length {
    if b.lines == 0 {
        Length {
            lines: a.lines,
            cols: a.cols.saturating_add(b.cols),
        }
    } else {
        Length {
            lines: a.lines.saturating_add(b.lines),
            cols: b.cols,
        }
    }
}

/// Adds a piece, with a space before it where it would stick to the last, and tells how long what was added is.
fn add(pieces: &mut Vec<Piece>, piece: Piece) -> Result<Length, AllocError> {
    let mut length = piece.length();
    let sticks = match pieces.last() {
        Some(last) => last.sticks() && piece.sticks(),
        None => false,
    };
    if sticks {
        pieces.push(SPACE)?;
        length = sum(SPACE.length(), length);
    }
    pieces.push(piece)?;
    Ok(length)
}

/// Some pieces.
pub(crate) fn pieces_by(
    alloc: Global,
    numbers: &mut Numbers,
    count: u32,
) -> Result<Vec<Piece>, AllocError> {
    let mut pieces = Vec::new(alloc);
    for _ in 0..count {
        let _added = add(&mut pieces, Piece::by(numbers))?;
    }
    Ok(pieces)
}

/// Pieces whose openers and closers are all paired.
pub(crate) fn paired_pieces_by(
    alloc: Global,
    numbers: &mut Numbers,
    count: u32,
) -> Result<Vec<Piece>, AllocError> {
    let mut pieces = Vec::new(alloc);
    let mut open = Vec::new(alloc);
    for _ in 0..count {
        match numbers.below(4) {
            0 | 1 if open.len() < 9 => {
                let kind = numbers.below(7);
                open.push(kind)?;
                let _added = add(&mut pieces, Piece::Open(kind))?;
            }
            2 => {
                if let Some(kind) = open.pop() {
                    let _added = add(&mut pieces, Piece::Close(kind))?;
                }
            }
            _ => {
                let _added = add(&mut pieces, Piece::Other(numbers.below(4)))?;
            }
        }
    }
    for kind in open.iter().rev() {
        let _added = add(&mut pieces, Piece::Close(*kind))?;
    }
    Ok(pieces)
}

pub(crate) fn text_of(alloc: Global, pieces: &[Piece]) -> Result<String, AllocError> {
    let mut text = String::new(alloc);
    for piece in pieces {
        text.push_str(piece.text())?;
    }
    Ok(text)
}

/// A text after changes, and the changes.
#[derive(Drop)]
pub(crate) struct Edited {
    pub(crate) pieces: Vec<Piece>,
    pub(crate) changes: Vec<Change>,
    pub(crate) ends: Vec<Ends>,
}

/// How far an edit is: the ends of the text so far in both texts, and what a change takes and gives that isn't at its
/// end yet.
#[derive(Drop)]
struct Draft {
    edited: Edited,
    old: Length,
    new: Length,
    open: bool,
    gone: Length,
    made: Length,
}

const NOTHING: Length = Length { lines: 0, cols: 0 };

impl Draft {
    fn new(alloc: Global) -> Draft {
        Draft {
            edited: Edited {
                pieces: Vec::new(alloc),
                changes: Vec::new(alloc),
                ends: Vec::new(alloc),
            },
            old: NOTHING,
            new: NOTHING,
            open: false,
            gone: NOTHING,
            made: NOTHING,
        }
    }

    fn take(&mut self, piece: Piece) {
        self.open = true;
        self.gone = sum(self.gone, piece.length());
    }

    fn give(&mut self, piece: Piece) -> Result<(), AllocError> {
        self.open = true;
        let length = add(&mut self.edited.pieces, piece)?;
        self.made = sum(self.made, length);
        Ok(())
    }

    /// Ends a change.
    fn close(&mut self) -> Result<(), AllocError> {
        if self.open {
            let old_to = sum(self.old, self.gone);
            let new_to = sum(self.new, self.made);
            self.edited.changes.push(Change {
                start: self.old,
                old: self.gone,
                new: self.made,
            })?;
            self.edited.ends.push(Ends {
                old_from: self.old,
                old_to,
                new_from: self.new,
                new_to,
            })?;
            self.old = old_to;
            self.new = new_to;
            self.gone = NOTHING;
            self.made = NOTHING;
            self.open = false;
        }
        Ok(())
    }

    /// A piece that stays. What would stick to it is parted from it by the change before.
    fn keep(&mut self, piece: Piece) -> Result<(), AllocError> {
        let sticks = match self.edited.pieces.last() {
            Some(last) => last.sticks() && piece.sticks(),
            None => false,
        };
        if sticks {
            self.give(SPACE)?;
        }
        self.close()?;
        self.edited.pieces.push(piece)?;
        self.old = sum(self.old, piece.length());
        self.new = sum(self.new, piece.length());
        Ok(())
    }
}

/// A text after changes that numbers tell, about one in so many pieces.
pub(crate) fn edited_by(
    alloc: Global,
    numbers: &mut Numbers,
    pieces: &[Piece],
    every: u32,
) -> Result<Edited, AllocError>
    requires { 0 < every }
{
    let mut draft = Draft::new(alloc);
    let mut left = 0u32;
    for piece in pieces {
        if left == 0 && numbers.below(every) == 0 {
            for _ in 0..numbers.below(4) {
                draft.give(Piece::by(numbers))?;
            }
            left = numbers.below(5);
        }
        if left == 0 {
            draft.keep(*piece)?;
        } else {
            draft.take(*piece);
            left -= 1;
        }
    }
    draft.close()?;
    Ok(draft.edited)
}
