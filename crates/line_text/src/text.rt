//! A text and its lines.

ghost use Rattle.std.specs.Prelude.{◌≡◌, ◌≢◌, ◌++◌, ◌<◌, ◌≤◌, All, length, IfOk};
ghost use Rattle.text_defs.specs.Text.{line_count, line_of};
ghost use Rattle.text_defs.specs.Place.{holds};
ghost use Rattle.line_text.specs.PlaceLaws.{EachOffsetHasItsPlace, EachPlaceHasItsOffset};

use line_list::{LineList, Shared};
use std::alloc::{AllocError, Global};
use std::marker::Model;
use text_defs::{MOST_CHARS, MOST_LINES};
use text_pos::Pos;

/// The characters of one line, without its end.
#[derive(Debug, Drop)]
pub struct Line {
    chars: Vec<char>,
}

impl Model for Line {
    ghost use Rattle.std.specs.Prelude.{List, ℕ};

    ghost Value = { List ℕ };

    ghost view = { λ line. line.chars.items };
}

impl Line {
    /// A line with a copy of these characters and then of those.
    pub(crate) fn of(alloc: Global, front: &[char], rest: &[char]) -> Result<Line, AllocError>
        ensures { IfOk result (λ line. line ≡ front.now ++ rest.now) }
    {
        let mut chars = Vec::with_capacity(alloc, front.len() + rest.len())?;
        chars.extend_from_slice(front)?;
        chars.extend_from_slice(rest)?;
        Ok(Line { chars })
    }

    /// The characters, one Unicode scalar value each.
    pub fn chars(&self) -> &[char]
        ensures { result.now ≡ self.now }
    {
        self.chars.as_slice()
    }
}

/// A text. Clauses see its characters as one list, with one LF between two lines.
#[derive(Debug, Drop)]
pub struct Text {
    lines: LineList<Shared<Line>>,
    chars: u32,
}

impl Model for Text {
    ghost use Rattle.std.specs.Prelude.{List, ℕ};
    ghost use Rattle.line_text.specs.Lines.{joined, IsKept};

    ghost Value = { List ℕ };

    ghost view = { λ text. joined text.lines };

    ghost invariant = { λ text. IsKept text.lines text.chars };
}

impl Text {
    ghost use Rattle.line_text.specs.Lines.{joined, IsPlain, ArePlain, IsKept};
    ghost use Rattle.text_defs.specs.Text.{lines_of};

    /// The text of these lines.
    pub(crate) fn of_lines(lines: LineList<Shared<Line>>, chars: u32) -> Text
        requires { IsKept lines chars }
        ensures { result ≡ joined lines }
    {
        Text { lines, chars }
    }

    /// The lines, to be shared with another text.
    pub(crate) fn kept_lines(&self) -> &LineList<Shared<Line>>
        ensures lines { result.now ≡ lines_of self.now }
        ensures plain { ArePlain result.now }
        ensures some { 0 < length result.now }
        ensures few { length result.now ≤ MOST_LINES }
        ensures few_chars { length self.now ≤ MOST_CHARS }
    {
        &self.lines
    }

    /// The number of lines, which is one more than that of the LFs.
    pub fn lines(&self) -> u32
        ensures count { result ≡ line_count self.now }
        ensures some { 0 < result }
        ensures few { result ≤ MOST_LINES }
    {
        self.kept_lines().len() as u32
    }

    /// The number of characters of the flat text.
    pub fn chars(&self) -> u32
        ensures count { result ≡ length self.now }
        ensures few { result ≤ MOST_CHARS }
    {
        self.chars
    }

    /// Line `n`, from 0.
    pub fn line(&self, n: u32) -> &Line
        requires { n < line_count self.now }
        ensures line { result.now ≡ line_of self.now n }
        ensures no_lf { All (λ c. c ≢ 10) result.now }
        ensures no_cr { All (λ c. c ≢ 13) result.now }
        ensures few { length result.now ≤ MOST_CHARS }
    {
        self.shared_line(n).get()
    }

    /// Line `n`, to be shared with another text.
    pub(crate) fn shared_line(&self, n: u32) -> &Shared<Line>
        requires { n < line_count self.now }
        ensures line { result.now ≡ line_of self.now n }
        ensures plain { IsPlain result.now }
        ensures few { length result.now ≤ MOST_CHARS }
    {
        self.kept_lines().get(n as usize)
    }

    /// Whether a place is in the text: its line is there, and is at least so long.
    pub fn holds(&self, at: Pos) -> bool
        ensures { result ≡ holds self.now at }
    {
        at.line < self.lines() && at.col as usize <= self.line(at.line).chars().len()
    }
}

/// A place is in a text exactly where it is the place of one of its offsets, from 0 to its length, and each of these
/// has a place of its own.
pub fn places_are_those_of_offsets()
    ensures offsets { EachOffsetHasItsPlace }
    ensures places { EachPlaceHasItsOffset }
{}
