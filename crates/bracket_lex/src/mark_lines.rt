//! The marks of a text's lines, in lists that share their lines.

ghost use Rattle.std.specs.Prelude.{◌≡◌, ◌<◌, ◌≤◌, ◌+◌, [], ◌∷◌, ◌++◌, List, length, take, drop, slice_index_or, slice_set, IfOk, OnOk, OnErr};
ghost use Rattle.bracket_marks.specs.MarkedLine.{MarkedLine, text_end};

use bracket_marks::LineMarks;
use line_list::{Items, LineList, MOST_ITEMS, Shared};
use std::alloc::{AllocError, Global};
use std::marker::Model;
use text_pos::Pos;

/// The marks of a text's lines. The line of a mark is the place of its `LineMarks` in this list. Lists that are made of
/// others share what they have in common.
#[derive(Debug, Drop)]
pub struct MarkLines {
    alloc: Global,
    lines: LineList<Shared<LineMarks>>,
}

impl Model for MarkLines {
    ghost Value = { List MarkedLine };

    ghost view = { λ m. m.lines };
}

impl MarkLines {
    pub fn new(alloc: Global) -> MarkLines
        ensures { result ≡ [] }
    {
        MarkLines {
            alloc,
            lines: LineList::new(alloc),
        }
    }

    /// The number of lines.
    pub fn len(&self) -> usize
        ensures count { result ≡ length self.now }
        ensures bound { length self.now ≤ MOST_ITEMS }
    {
        self.lines.len()
    }

    /// Line `n`, from 0.
    pub fn get(&self, n: u32) -> &LineMarks
        requires { n < length self.now }
        ensures { result.now ≡ slice_index_or self.now n result.now }
    {
        self.lines.get(n as usize).get()
    }

    /// The lines in order.
    pub fn iter(&self) -> Items<'_, Shared<LineMarks>>
        ensures lines { result ≡ self.now }
        ensures bound { length self.now ≤ MOST_ITEMS }
    {
        self.lines.iter()
    }

    pub fn push(&mut self, line: LineMarks) -> Result<(), AllocError>
        requires { length self.old < MOST_ITEMS }
        ensures ok { OnOk result (self.new ≡ self.old ++ line ∷ []) }
        ensures err { OnErr result (self.new ≡ self.old) }
    {
        self.lines.push(Shared::new(self.alloc, line)?)
    }

    /// Adds `count` lines of a list, from line `from` on, and shares them. Where memory is wanting, a front of them may
    /// have been added, and lines may be gone: the list is to be let go.
    pub fn push_run(
        &mut self,
        lines: &MarkLines,
        from: usize,
        count: usize,
    ) -> Result<(), AllocError>
        requires within { from + count ≤ length lines.now }
        requires fits { length self.old + count ≤ MOST_ITEMS }
        ensures { OnOk result (self.new ≡ self.old ++ take count (drop from lines.now)) }
    {
        self.lines.push_run(&lines.lines, from, count)
    }

    /// Puts a line in the place of line n. Where memory is wanting the list is as before.
    pub fn put(&mut self, n: u32, line: LineMarks) -> Result<(), AllocError>
        requires { n < length self.old }
        ensures ok { OnOk result (self.new ≡ slice_set self.old n line) }
        ensures err { OnErr result (self.new ≡ self.old) }
    {
        self.lines.put(n as usize, Shared::new(self.alloc, line)?)
    }

    /// The same list. Both share their lines.
    pub fn copy(&self, alloc: Global) -> Result<MarkLines, AllocError>
        ensures { IfOk result (λ lines. lines ≡ self.now) }
    {
        Ok(MarkLines {
            alloc,
            lines: self.lines.copy(alloc)?,
        })
    }

    /// The place of the text's end.
    pub fn end(&self) -> Pos
        requires { 0 < length self.now }
        ensures { result ≡ text_end self.now }
    {
        let last = self.lines.len() - 1;
        Pos {
            line: last as u32,
            col: self.lines.get(last).get().length(),
        }
    }
}
