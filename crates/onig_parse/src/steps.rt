//! Steps of reading: repeats and items.

ghost use Rattle.std.specs.Prelude.{◌≡◌, ◌∷◌, [], ◌++◌, ◌+◌, ◌<◌, ◌≤◌, length, Some, IfOk, OnOk, drop, not, ◌==◌};
ghost use Rattle.std.specs.List.{prefix_len};
ghost use Rattle.syntax_defs.specs.PatternSyntax.{Seen, Body, Stepped, BodyReader, after_bar, atomic_of, behind_comment, body_items, body_list, comment_length, go_on, is_above, is_below, is_lazy, is_possessive, next_id, open_items, past, plain_repeat, possessive_repeat, repeat_at, repeat_on, rest_of, signed, step_by, with_list};
ghost use Rattle.onig_parse.specs.Reading.{GivesStep, GivesNow};
ghost use Rattle.syntax_defs.specs.Limits.{most_repeats, most_pattern_chars};

use crate::body::OpenBody;
use crate::head::{Extent, behind};
use crate::reader::Reader;
use crate::sight::begins_with;
use pattern_defs::{ListId, ListIds};
use std::alloc::{AllocError, Global};
use syntax_defs::{Bounds, Form, Item, PatternRefusal};

/// A list of one item.
pub(crate) fn one_item(alloc: Global, item: Item) -> Result<Vec<Item>, AllocError>
    ensures { IfOk result (λ items. items.items ≡ item ∷ []) }
{
    Ok(vec![in alloc; item]?)
}

pub(crate) fn is_above(n: u32, bound: Option<u32>) -> bool
    ensures { result ≡ is_above n bound }
{
    match bound {
        None => false,
        Some(m) => n < m,
    }
}

pub(crate) fn is_below(bound: Option<u32>, n: u32) -> bool
    ensures { result ≡ is_below bound n }
{
    match bound {
        None => false,
        Some(m) => m < n,
    }
}

/// Whether the sign behind a repeat makes it lazy.
pub(crate) fn is_lazy(form: Form, cs: &[char]) -> bool
    ensures { result ≡ is_lazy form cs.now }
{
    match form {
        Form::Count => false,
        Form::Sign | Form::Interval => begins_with('?', cs),
    }
}

/// Whether the sign behind a repeat makes it possessive.
pub(crate) fn is_possessive(form: Form, cs: &[char]) -> bool
    ensures { result ≡ is_possessive form cs.now }
{
    match form {
        Form::Sign => begins_with('+', cs),
        Form::Count | Form::Interval => false,
    }
}

impl Reader {
    /// The item that begins here.
    pub(crate) fn here(&self) -> Extent
        ensures extent { result ≡ record { begin = self.now.place; end = length self.now.text } }
        ensures short { result.begin ≤ most_pattern_chars }
    {
        Extent {
            begin: self.place(),
            end: self.text().len(),
        }
    }

    /// The items of a body that has ended: those of its only alternative, or one choice.
    pub(crate) fn body_items(&mut self, body: OpenBody) -> Result<Vec<Item>, AllocError>
        ensures { IfOk result (λ items. body_items body self.old ≡ (items.items, self.new)) }
    {
        let alloc = self.alloc();
        let (mut ended, items) = body.into_parts()?;
        if ended.as_slice().is_empty() {
            return Ok(items);
        }
        let last = self.end_list(items)?;
        ended.push(last)?;
        one_item(alloc, Item::Choice(ended))
    }

    /// A body that has ended, as a list of its own.
    pub(crate) fn body_list(&mut self, body: OpenBody) -> Result<ListId, AllocError>
        ensures { IfOk result (λ id. body_list body self.old ≡ (id, self.new)) }
    {
        let items = self.body_items(body)?;
        self.end_list(items)
    }

    /// The alternatives of a body that has ended, each a list of its own.
    pub(crate) fn body_arms(&mut self, body: OpenBody) -> Result<ListIds, AllocError>
        ensures arms { IfOk result (λ arms. arms ≡ body.ended ++ next_id self.old ∷ []) }
        ensures lists { OnOk result (self.new ≡ with_list (open_items body) self.old) }
    {
        let (mut ended, items) = body.into_parts()?;
        let last = self.end_list(items)?;
        ended.push(last)?;
        Ok(ended)
    }

    /// Ends an alternative at a bar.
    pub(crate) fn take_bar(&mut self, body: &mut OpenBody) -> Result<bool, PatternRefusal>
        ensures { GivesStep result body.new self.new (go_on (after_bar body.old self.old) (past 1 (with_list (open_items body.old) self.old))) }
    {
        let items = body.take_open(self.alloc())?;
        let id = self.end_list(items)?;
        body.take_ended(id)?;
        self.pass(1);
        Ok(true)
    }

    /// Repeats the last item.
    pub(crate) fn plain_repeat(
        &mut self,
        body: &mut OpenBody,
        bounds: Bounds,
        greedy: bool,
        more: usize,
        count: u32,
    ) -> Result<bool, PatternRefusal>
        requires few { count < most_repeats }
        requires short { more < 8 }
        ensures { GivesStep result body.new self.new (plain_repeat bounds greedy more count body.old self.old) }
    {
        let inner = self.end_list(body.take_last(self.alloc()))?;
        let repeat = Item::Repeat {
            body: inner,
            least: bounds.least,
            most: bounds.most,
            greedy,
        };
        body.put_last(one_item(self.alloc(), repeat)?, count + 1);
        self.pass(bounds.length as usize + more);
        Ok(true)
    }

    /// Repeats the last item, and keeps the first way through it alone.
    pub(crate) fn possessive_repeat(
        &mut self,
        body: &mut OpenBody,
        bounds: Bounds,
        count: u32,
    ) -> Result<bool, PatternRefusal>
        requires few { count < most_repeats }
        ensures { GivesStep result body.new self.new (possessive_repeat bounds count body.old self.old) }
    {
        let inner = self.end_list(body.take_last(self.alloc()))?;
        let repeat = Item::Repeat {
            body: inner,
            least: bounds.least,
            most: bounds.most,
            greedy: true,
        };
        let whole = self.end_list(one_item(self.alloc(), repeat)?)?;
        body.put_last(one_item(self.alloc(), Item::Atomic(whole))?, count + 1);
        self.pass(bounds.length as usize + 1);
        Ok(true)
    }
}
