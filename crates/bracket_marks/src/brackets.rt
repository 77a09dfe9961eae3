//! The texts that are brackets, made of pairs, and the marks of a line by the types of its tokens.

ghost use Rattle.std.specs.Prelude.{◌≡◌, ◌<◌, ◌≤◌, ◌+◌, ◌-◌, ◌^◌, ◌++◌, ℕ, max, length, IfOk};
ghost use Rattle.std.specs.Option.{option_copied};
ghost use Rattle.pairing_defs.specs.Marks.{counts_by, bracket_at, marks_from, marks_of};
ghost use Rattle.pairing_defs.specs.BracketTexts.{brackets_of, within_limits, texts_of};
ghost use Rattle.bracket_marks.specs.Longest.{or_longer};
ghost use Rattle.bracket_marks.specs.PairViews.{GivesBrackets};

use crate::line_marks::LineMarks;
use crate::pairs::{Texts, closers_of, first_long, kept_pairs, openers_of};
use crate::standing::stands;
use crate::texts::bracket_texts;
use crate::type_runs::runs_behind;
use line_text::Line;
use pairing_defs::{BracketText, LineMark, MOST_KINDS, PairText, PairTexts};
use scope_defs::TypeRun;
use std::alloc::{AllocError, Global};
use std::marker::Model;
use thiserror::Error;

/// The texts that are brackets.
#[derive(Debug, Drop)]
pub struct Brackets {
    texts: Vec<BracketText>,
}

impl Model for Brackets {
    ghost use Rattle.std.specs.Prelude.{List};
    ghost use Rattle.pairing_defs.specs.declared.BracketText.{BracketText};

    ghost Value = { List BracketText };

    ghost view = { λ b. b.texts.items };
}

/// Why pairs of texts are no brackets. The first that fits is answered; the limits are this project's own.
#[derive(Debug, Drop, Error)]
pub enum BracketRefusal {
    /// So many texts open, or so many close, whichever is more: more than `MOST_KINDS`.
    #[error("TooManyKinds")]
    TooManyKinds { count: u64 },
    /// The longer text of this pair has so many characters, more than `MOST_BRACKET_CHARS`. Pairs count from 0, without
    /// those that are dropped.
    #[error("TextLength")]
    TextLength { index: u64, count: u64 },
    #[error("Memory")]
    Memory,
}

impl From<AllocError> for BracketRefusal {
    ghost use Rattle.bracket_marks.specs.declared.brackets.BracketRefusal.TheVariants.{Memory};

    ghost from_gives = { λ _ e. e ≡ Memory };

    fn from(_e: AllocError) -> BracketRefusal {
        BracketRefusal::Memory
    }
}

/// The longer of two texts, and the first of two that are equally long.
fn longer<'a>(first: Option<&'a BracketText>, b: &'a BracketText) -> Option<&'a BracketText>
    ensures { option_copied result ≡ or_longer (option_copied first.entry) b.now }
{
    match first {
        Some(a) if a.text.as_slice().len() >= b.text.as_slice().len() => Some(a),
        _ => Some(b),
    }
}

impl Brackets {
    /// The brackets of these pairs. A pair is dropped where a text is empty, where both are equal, and where its opener
    /// closes or its closer opens a pair before it that isn't dropped. Each text that opens is a kind of its own, and a
    /// text closes each kind with which it is a pair.
    pub fn new(alloc: Global, pairs: &PairTexts) -> Result<Brackets, BracketRefusal>
        ensures { GivesBrackets result (brackets_of pairs.now) }
    {
        let kept = kept_pairs(alloc, pairs.as_slice())?;
        Brackets::of_kept(alloc, kept.as_slice())
    }

    fn of_kept(alloc: Global, kept: &[PairText]) -> Result<Brackets, BracketRefusal>
        ensures { GivesBrackets result (within_limits kept.now) }
    {
        let openers = openers_of(alloc, kept)?;
        let closers = closers_of(alloc, kept)?;
        let count = greater(&openers, &closers);
        if count > MOST_KINDS {
            return Err(BracketRefusal::TooManyKinds { count });
        }
        if let Some(long) = first_long(kept) {
            return Err(BracketRefusal::TextLength {
                index: long.index,
                count: long.count,
            });
        }
        let texts = bracket_texts(alloc, kept, openers.as_slice(), closers.as_slice())?;
        Ok(Brackets { texts })
    }

    /// The longest of the texts that stand at a column of a line, and the first of those that are equally long.
    fn at_column(&self, line: &[char], types: &[TypeRun], column: usize) -> Option<&BracketText>
        requires { column ≤ length line.now }
        ensures { option_copied result ≡ bracket_at self.now (counts_by types.now) line.now column }
    {
        let mut longest: Option<&BracketText> = None;
        for b in &self.texts {
            if stands(b, line, types, column) {
                longest = longer(longest, b);
            }
        }
        longest
    }

    /// Adds the mark at a column, if there is one, and goes on behind it.
    fn take_column(
        &self,
        marks: &mut Vec<LineMark>,
        line: &[char],
        types: &[TypeRun],
        column: usize,
    ) -> Result<usize, AllocError>
        requires inside { column < length line.now }
        requires short { length line.now < 2 ^ 32 }
        ensures bound { IfOk result (λ next. (column < next) × (next ≤ length line.now)) }
        ensures marks { IfOk result (λ next. let found = bracket_at self.now (counts_by types.now) line.now in
            marks.new.items ++ marks_from found 0 next (length line.now - next)
            ≡ marks.old.items ++ marks_from found 0 column (length line.now - column)) }
    {
        match self.at_column(line, types, column) {
            None => Ok(column + 1),
            Some(b) => {
                let end = column + b.text.as_slice().len();
                marks.push(LineMark {
                    from: column as u32,
                    to: end as u32,
                    role: b.role,
                })?;
                Ok(end)
            }
        }
    }

    /// The marks of a line whose tokens have these types. A text is a mark only in tokens of type Other, and where it cuts
    /// no word; the longest text is the mark. A line of `long` or more characters has no marks. That is this project's own.
    pub fn marks(
        &self,
        alloc: Global,
        line: &Line,
        types: &[TypeRun],
        long: u32,
    ) -> Result<LineMarks, AllocError>
        requires { length line.now < 2 ^ 32 }
        ensures marks { IfOk result (λ found. found.marks ≡ marks_of self.now long (counts_by types.now) line.now) }
        ensures length { IfOk result (λ found. found.length ≡ length line.now) }
    {
        self.marks_in(alloc, line.chars(), types, long)
    }

    fn marks_in(
        &self,
        alloc: Global,
        line: &[char],
        types: &[TypeRun],
        long: u32,
    ) -> Result<LineMarks, AllocError>
        requires { length line.now < 2 ^ 32 }
        ensures marks { IfOk result (λ found. found.marks ≡ marks_of self.now long (counts_by types.now) line.now) }
        ensures length { IfOk result (λ found. found.length ≡ length line.now) }
    {
        let length = line.len() as u32;
        if length >= long {
            return LineMarks::none(alloc, length);
        }
        let mut marks = Vec::new(alloc);
        let mut rest = types;
        let mut column = 0;
        while column < line.len() {
            rest = runs_behind(rest, column);
            column = self.take_column(&mut marks, line, rest, column)?;
        }
        Ok(LineMarks::of(marks, length))
    }
}

/// How many texts open or close, whichever is more.
fn greater(openers: &Texts, closers: &Texts) -> u64
    ensures { result ≡ max (length openers.now) (length closers.now) }
{
    let openers = openers.as_slice().len();
    let closers = closers.as_slice().len();
    openers.max(closers) as u64
}
