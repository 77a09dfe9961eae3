//! A text that is being put together.

ghost use Rattle.std.specs.Prelude.{◌≡◌, ◌≢◌, ◌+◌, ◌-◌, ◌≤◌, ℕ, List, [], ◌∷◌, ◌++◌, length, take, drop, OnOk, OnErr, IfOk};
ghost use Rattle.std.specs.Str.{chars};
ghost use Rattle.text_defs.specs.Text.{line_count, most_chars, most_lines};
ghost use Rattle.line_text.specs.LineEnds.{normed};
ghost use Rattle.line_text.specs.Lines.{chars_of, ended, IsPlain, ArePlain};

use crate::before::Before;
use crate::text::{Line, Text};
use line_list::{LineList, MOST_ITEMS, Share, Shared};
use std::alloc::{AllocError, Global};
use std::marker::Model;
use std::mem;
use text_defs::MOST_LINES;

/// A text that is being put together. Clauses see its characters as one list.
#[derive(Drop)]
pub(crate) struct Draft {
    alloc: Global,
    /// The lines that have an end.
    done: LineList<Shared<Line>>,
    /// A line of another text with which the open line begins.
    shared: Option<Shared<Line>>,
    /// The open line's characters behind that.
    current: Vec<char>,
}

impl Model for Draft {
    ghost use Rattle.std.specs.Prelude.{List, ℕ, ◌++◌};
    ghost use Rattle.line_text.specs.Lines.{ended, chars_of, IsPlain, ArePlain};

    ghost Value = { List ℕ };

    ghost view = { λ draft. ended draft.done ++ (chars_of draft.shared ++ draft.current.items) };

    ghost invariant = { λ draft. ArePlain draft.done × IsPlain (chars_of draft.shared) × IsPlain draft.current.items };
}

impl Draft {
    pub(crate) fn new(alloc: Global) -> Draft
        ensures { result ≡ [] }
    {
        Draft {
            alloc,
            done: LineList::new(alloc),
            shared: None,
            current: Vec::new(alloc),
        }
    }

    /// Adds a character, which may be an LF and is no CR.
    pub(crate) fn put(&mut self, c: char) -> Result<(), AllocError>
        requires { c ≢ 13 }
        ensures { OnOk result (self.new ≡ self.old ++ c ∷ []) }
    {
        if c == '\n' {
            self.end_line()
        } else {
            self.current.push(c)?;
            Ok(())
        }
    }

    /// Adds an LF.
    fn end_line(&mut self) -> Result<(), AllocError>
        ensures { OnOk result (self.new ≡ self.old ++ 10 ∷ []) }
    {
        let line = whole_line(self.alloc, self.shared.take(), self.current.as_slice())?;
        add_line(&mut self.done, line)?;
        self.current.clear();
        Ok(())
    }

    /// Adds a part of a line of another text. A whole line is shared where it begins the open line.
    pub(crate) fn put_part(
        &mut self,
        line: &Shared<Line>,
        from: usize,
        to: usize,
    ) -> Result<(), AllocError>
        requires rises { from ≤ to }
        requires within { to ≤ length line.now }
        requires plain { IsPlain line.now }
        ensures { OnOk result (self.new ≡ self.old ++ take (to - from) (drop from line.now)) }
    {
        let chars = line.get().chars();
        let is_whole = from == 0 && to == chars.len();
        if is_whole && self.shared.is_none() && self.current.is_empty() {
            self.shared = Some(line.share()?);
            Ok(())
        } else {
            self.current.extend_from_slice(&chars[from..to])
        }
    }

    /// Adds `count` lines of another text from line `from` on, and an LF behind each. Where no line is open, they are
    /// shared in the pieces in which that text has them.
    pub(crate) fn put_lines(
        &mut self,
        lines: &LineList<Shared<Line>>,
        from: usize,
        count: usize,
    ) -> Result<(), AllocError>
        requires within { from + count ≤ length lines.now }
        requires few { length lines.now ≤ MOST_LINES }
        requires plain { ArePlain lines.now }
        ensures { OnOk result (self.new ≡ self.old ++ ended (take count (drop from lines.now))) }
    {
        if self.shared.is_none() && self.current.is_empty() {
            let done = mem::replace(&mut self.done, LineList::new(self.alloc));
            self.done = with_lines(done, lines, from, count)?;
            return Ok(());
        }
        for n in 0..count {
            let line = lines.get(from + n);
            self.put_part(line, 0, line.get().chars().len())?;
            self.end_line()?;
        }
        Ok(())
    }

    /// Adds what these characters add to a text.
    pub(crate) fn put_text(&mut self, text: &str, mut before: Before) -> Result<(), AllocError>
        ensures { OnOk result (self.new ≡ self.old ++ normed before (chars text.now)) }
    {
        for c in text.chars() {
            if let Some(added) = before.take(c) {
                self.put(added)?;
            }
        }
        Ok(())
    }

    /// The text, whose number of characters the caller has counted.
    pub(crate) fn finish(mut self, chars: u32) -> Result<Text, AllocError>
        requires counted { chars ≡ length self }
        requires few_chars { chars ≤ most_chars }
        requires few_lines { line_count self ≤ most_lines }
        ensures { IfOk result (λ text. text ≡ self) }
    {
        let line = whole_line(self.alloc, self.shared.take(), self.current.as_slice())?;
        add_line(&mut self.done, line)?;
        Ok(Text::of_lines(self.done, chars))
    }
}

/// Adds a line. A text that is within the limits has fewer lines than a list can have.
fn add_line(lines: &mut LineList<Shared<Line>>, line: Shared<Line>) -> Result<(), AllocError>
    ensures ok { OnOk result (lines.new ≡ lines.old ++ line ∷ []) }
    ensures err { OnErr result (lines.new ≡ lines.old) }
{
    if lines.len() >= MOST_ITEMS {
        return Err(AllocError);
    }
    lines.push(line)
}

/// These lines and then a run of others, in the same way.
fn with_lines(
    mut lines: LineList<Shared<Line>>,
    more: &LineList<Shared<Line>>,
    from: usize,
    count: usize,
) -> Result<LineList<Shared<Line>>, AllocError>
    requires { from + count ≤ length more.now }
    ensures { IfOk result (λ all. all ≡ lines ++ take count (drop from more.now)) }
{
    if count > MOST_ITEMS - lines.len() {
        return Err(AllocError);
    }
    lines.push_run(more, from, count)?;
    Ok(lines)
}

/// The line that begins with this line of another text and goes on with these characters.
fn whole_line(
    alloc: Global,
    shared: Option<Shared<Line>>,
    rest: &[char],
) -> Result<Shared<Line>, AllocError>
    ensures { IfOk result (λ line. line ≡ chars_of shared ++ rest.now) }
{
    match shared {
        Some(line) => {
            if rest.is_empty() {
                Ok(line)
            } else {
                Shared::new(alloc, Line::of(alloc, line.get().chars(), rest)?)
            }
        }
        None => Shared::new(alloc, Line::of(alloc, &[], rest)?),
    }
}
