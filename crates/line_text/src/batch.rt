//! A text after a batch of edits, and the lines that the batch carries.

ghost use Rattle.std.specs.Prelude.{◌≡◌, ◌≢◌, ◌+◌, ◌-◌, ◌≤◌, ℕ, Option, Some, None, ◌++◌, length, take, drop, true, false, IfOk, IfErr, OnOk, OnErr, ◌&&◌, not};
ghost use Rattle.text_pos.specs.declared.length.Pos.{Pos};
ghost use Rattle.text_defs.specs.Batch.{edited, edit_fault, batch_refusal, is_in_range, is_in_order};
ghost use Rattle.text_defs.specs.Place.{offset_of, is_before, holds};
ghost use Rattle.text_defs.specs.Text.{line_count, lines_of, most_lines};
ghost use Rattle.line_text.specs.BatchRefusals.{HasCause};
ghost use Rattle.line_text.specs.Carried.{carried, LeadsFrom};
ghost use Rattle.line_text.specs.Sizes.{IsSizeOf};

use crate::before::Before;
use crate::carry::Carry;
use crate::draft::Draft;
use crate::edit::{Edit, EditRefusal};
use crate::size::{Size, size_of};
use crate::text::Text;
use std::alloc::{AllocError, Global};
use text_defs::{MOST_CHARS, MOST_LINES};
use text_pos::{Pos, Span};

/// A text after a batch, and the lines that the batch carries.
#[derive(Debug, Drop)]
pub struct Edited {
    pub text: Text,
    pub carry: Carry,
}

/// Whether a place is before another, by line and then by column.
fn is_before(a: Pos, b: Pos) -> bool
    ensures { result ≡ is_before a b }
{
    a.line < b.line || (a.line == b.line && a.col < b.col)
}

impl Text {
    /// Whether both places are there, and the end isn't before the start.
    fn has_span(&self, span: Span) -> bool
        ensures { result ≡ (holds self.now span.from && holds self.now span.to && not (is_before span.to span.from)) }
    {
        self.holds(span.from) && self.holds(span.to) && !is_before(span.to, span.from)
    }

    /// Whether each edit is in range and in order; else what is wrong with the first that isn't.
    fn check_edits(&self, edits: &[Edit]) -> Result<(), EditRefusal>
        ensures ok { OnOk result (edit_fault self.now None 0 edits.now ≡ None) }
        ensures refused { IfErr result (HasCause (edit_fault self.now None 0 edits.now)) }
    {
        let mut end: Option<Pos> = None;
        for (index, edit) in edits.iter().enumerate() {
            let span = edit.span();
            if !self.has_span(span) {
                return Err(EditRefusal::Range {
                    index: index as u64,
                });
            }
            if let Some(end) = end {
                if is_before(span.from, end) {
                    return Err(EditRefusal::Order {
                        index: index as u64,
                    });
                }
            }
            end = Some(span.to);
        }
        Ok(())
    }

    /// How many characters lie between two places.
    fn chars_between(&self, from: Pos, to: Pos) -> u64
        requires from { holds self.now from ≡ true }
        requires to { holds self.now to ≡ true }
        requires forward { is_before to from ≡ false }
        ensures { offset_of self.now from + result ≡ offset_of self.now to }
    {
        let mut chars = u64::from(to.col);
        for n in from.line..to.line {
            chars += self.line(n).chars().len() as u64 + 1;
        }
        chars - u64::from(from.col)
    }

    /// The size of the text after a batch.
    fn size_after(&self, edits: &[Edit]) -> Size
        requires { edit_fault self.now None 0 edits.now ≡ None }
        ensures { IsSizeOf (edited self.now edits.now) result }
    {
        let mut kept_chars = u64::from(self.chars());
        let mut kept_lines = u64::from(self.lines());
        let mut added_chars = 0u64;
        let mut added_lines = 0u64;
        for edit in edits {
            let span = edit.span();
            kept_chars -= self.chars_between(span.from, span.to);
            kept_lines -= u64::from(span.to.line - span.from.line);
            let added = size_of(edit.text(), Before::Other);
            added_chars = added_chars.saturating_add(added.chars);
            added_lines = added_lines.saturating_add(added.lines - 1);
        }
        Size {
            chars: kept_chars.saturating_add(added_chars),
            lines: kept_lines.saturating_add(added_lines),
        }
    }

    /// Adds what lies between two places to a draft.
    fn copy_between(&self, draft: &mut Draft, from: Pos, to: Pos) -> Result<(), AllocError>
        requires from { holds self.now from ≡ true }
        requires to { holds self.now to ≡ true }
        requires forward { is_before to from ≡ false }
        ensures { OnOk result (draft.new ≡ draft.old
            ++ take (offset_of self.now to - offset_of self.now from) (drop (offset_of self.now from) self.now)) }
    {
        let first = self.shared_line(from.line);
        let col = from.col as usize;
        if from.line == to.line {
            return draft.put_part(first, col, to.col as usize);
        }
        draft.put_part(first, col, first.get().chars().len())?;
        draft.put('\n')?;
        let next = from.line + 1;
        draft.put_lines(self.kept_lines(), next as usize, (to.line - next) as usize)?;
        draft.put_part(self.shared_line(to.line), 0, to.col as usize)
    }

    /// The place behind the last character.
    fn end(&self) -> Pos
        ensures there { holds self.now result ≡ true }
        ensures last { (at : Pos) → holds self.now at ≡ true → is_before result at ≡ false }
        ensures whole { offset_of self.now result ≡ length self.now }
    {
        let line = self.lines() - 1;
        Pos {
            line,
            col: self.line(line).chars().len() as u32,
        }
    }

    /// The text after a batch.
    fn draft_after(&self, alloc: Global, edits: &[Edit]) -> Result<Draft, AllocError>
        requires { edit_fault self.now None 0 edits.now ≡ None }
        ensures { IfOk result (λ draft. draft ≡ edited self.now edits.now) }
    {
        let mut draft = Draft::new(alloc);
        let mut at = Pos { line: 0, col: 0 };
        for edit in edits {
            let span = edit.span();
            self.copy_between(&mut draft, at, span.from)?;
            draft.put_text(edit.text(), Before::Other)?;
            at = span.to;
        }
        self.copy_between(&mut draft, at, self.end())?;
        Ok(draft)
    }

    /// The lines that a batch carries.
    fn carry_after(&self, alloc: Global, edits: &[Edit]) -> Result<Carry, AllocError>
        requires valid { edit_fault self.now None 0 edits.now ≡ None }
        requires few { line_count (edited self.now edits.now) ≤ most_lines }
        ensures { IfOk result (λ carry. carry ≡ carried self.now edits.now) }
    {
        let lines = self.lines();
        let mut carry = Carry::new(alloc);
        // The first line that no edit so far has to do with, and its number in the new text.
        let mut old = 0;
        let mut new = 0;
        for edit in edits {
            let span = edit.span();
            carry.add(old, span.from.line, new)?;
            let added = size_of(edit.text(), Before::Other).lines as u32;
            new = new + span.from.line - old + added;
            old = span.to.line + 1;
        }
        carry.add(old, lines, new)?;
        Ok(carry)
    }

    /// The text after a batch of edits, and the lines that it carries. Both texts share those lines.
    ///
    /// All spans are places of this text, and all are replaced at once.
    pub fn edited(&self, alloc: Global, edits: &[Edit]) -> Result<Edited, EditRefusal>
        ensures text { IfOk result (λ after. after.text ≡ edited self.now edits.now) }
        ensures carry { IfOk result (λ after. after.carry ≡ carried self.now edits.now) }
        ensures leads { IfOk result (λ after. LeadsFrom (lines_of self.now) (lines_of after.text) after.carry) }
        ensures accepted { OnOk result (batch_refusal self.now edits.now ≡ None) }
        ensures refused { IfErr result (HasCause (batch_refusal self.now edits.now)) }
    {
        self.check_edits(edits)?;
        let size = self.size_after(edits);
        if size.chars > MOST_CHARS {
            return Err(EditRefusal::TooManyChars { count: size.chars });
        }
        if size.lines > MOST_LINES {
            return Err(EditRefusal::TooManyLines { count: size.lines });
        }
        let carry = self.carry_after(alloc, edits).map_err(EditRefusal::Memory)?;
        let draft = self.draft_after(alloc, edits).map_err(EditRefusal::Memory)?;
        let text = draft
            .finish(size.chars as u32)
            .map_err(EditRefusal::Memory)?;
        Ok(Edited { text, carry })
    }

    /// Makes this the text after a batch of edits. Refused, it stays as it was.
    pub fn apply(&mut self, alloc: Global, edits: &[Edit]) -> Result<Carry, EditRefusal>
        ensures text { OnOk result (self.new ≡ edited self.old edits.now) }
        ensures carry { IfOk result (λ carry. carry ≡ carried self.old edits.now) }
        ensures leads { IfOk result (LeadsFrom (lines_of self.old) (lines_of self.new)) }
        ensures accepted { OnOk result (batch_refusal self.old edits.now ≡ None) }
        ensures refused { IfErr result (HasCause (batch_refusal self.old edits.now)) }
        ensures unchanged { OnErr result (self.new ≡ self.old) }
    {
        let Edited { text, carry } = self.edited(alloc, edits)?;
        *self = text;
        Ok(carry)
    }
}
