//! The pieces of a list.

ghost use Rattle.std.specs.Prelude.{◌≡◌, ◌+◌, ◌*◌, ◌<◌, ◌≤◌, [], ◌++◌, length, take, drop, slice_index_or, IfOk, IfErr, OnOk, OnErr};
ghost use Rattle.line_list.specs.Parts.{items_of, IsLaid};

use crate::share::Share;
use std::alloc::{AllocError, Global};
use std::marker::Model;
use std::rc::Rc;

/// The most items of a piece.
pub const MOST_IN_PIECE: usize = 512;

/// The most items of a list.
pub const MOST_ITEMS: usize = 2_147_483_648;

/// A piece of a list, and the number of its first item in the list.
#[derive(Debug, Drop)]
pub(crate) struct Part<T> {
    pub(crate) start: usize,
    pub(crate) items: Rc<Vec<T>>,
}

/// The pieces of a list. Clauses see the list of their items.
#[derive(Debug, Drop)]
pub(crate) struct Pieces<T> {
    parts: Vec<Part<T>>,
    len: usize,
}

impl<T> Model for Pieces<T> {
    ghost use Rattle.std.specs.Prelude.{List, ◌≡◌, ◌≤◌, length};
    ghost use Rattle.std.specs.Coded.{coded_list};
    ghost use Rattle.line_list.specs.declared.pieces.TheConstants.{MOST_ITEMS};
    ghost use Rattle.line_list.specs.Parts.{items_of, IsLaid, AreFull};

    ghost Value = { List T };

    ghost coded = { coded_list T.code };

    ghost view = { λ list. items_of list.parts.items };

    ghost invariant = { λ list. IsLaid 0 list.parts.items × (list.len ≡ length (items_of list.parts.items))
        × (list.len ≤ MOST_ITEMS) × AreFull list.parts.items };
}

impl<T> Pieces<T> {
    pub(crate) fn new(alloc: Global) -> Pieces<T>
        ensures { result ≡ [] }
    {
        Pieces {
            parts: Vec::new(alloc),
            len: 0,
        }
    }

    pub(crate) fn len(&self) -> usize
        ensures count { result ≡ length self.now }
        ensures few { result ≤ MOST_ITEMS }
    {
        self.len
    }

    /// Item `n`, from 0.
    pub(crate) fn get(&self, n: usize) -> &T
        requires { n < length self.now }
        ensures { result.now ≡ slice_index_or self.now n result.now }
    {
        item_in(self.parts.as_slice(), n)
    }

    /// How many pieces there are: any two neighbours have more items together than one may have.
    pub(crate) fn count(&self) -> usize
        ensures { MOST_IN_PIECE * result ≤ 2 * length self.now + MOST_IN_PIECE }
    {
        self.parts.len()
    }

    /// The items from `n` to the end of a piece.
    pub(crate) fn run_from(&self, n: usize) -> &[T]
        requires { n < length self.now }
        ensures some { 0 < length result.now }
        ensures run { take (length result.now) (drop n self.now) ≡ result.now }
        ensures within { n + length result.now ≤ length self.now }
    {
        run_in(self.parts.as_slice(), n)
    }

    /// The pieces.
    pub(crate) fn parts(&self) -> &[Part<T>]
        ensures laid { IsLaid 0 result.now }
        ensures items { items_of result.now ≡ self.now }
        ensures few { length self.now ≤ MOST_ITEMS }
    {
        self.parts.as_slice()
    }

    /// Adds a piece that is full to the end. Its items come back where memory is wanting.
    pub(crate) fn push_full(&mut self, alloc: Global, items: Vec<T>) -> Result<(), Vec<T>>
        requires full { length items.items ≡ MOST_IN_PIECE }
        requires fits { length self.old + MOST_IN_PIECE ≤ MOST_ITEMS }
        ensures added { OnOk result (self.new ≡ self.old ++ items.items) }
        ensures same { OnErr result (self.new ≡ self.old) }
        ensures back { IfErr result (λ back. back ≡ items) }
        ensures few { length self.new ≤ MOST_ITEMS }
    {
        if self.parts.reserve(1).is_err() {
            return Err(items);
        }
        let items = match Rc::new(alloc, items) {
            Ok(items) => items,
            Err(failed) => return Err(failed.value),
        };
        match self.parts.push(Part {
            start: self.len,
            items,
        }) {
            Ok(()) => {}
            Err(_) => unreachable!(),
        }
        self.len += MOST_IN_PIECE;
        Ok(())
    }
}

impl<T: Share> Pieces<T> {
    /// Adds a piece to the end. A small one is put together with the last piece.
    pub(crate) fn add_piece(&mut self, alloc: Global, items: Rc<Vec<T>>) -> Result<(), AllocError>
        requires some { 0 < length items.value.items }
        requires few { length items.value.items ≤ MOST_IN_PIECE }
        requires fits { length self.old + length items.value.items ≤ MOST_ITEMS }
        ensures added { OnOk result (self.new ≡ self.old ++ items.value.items) }
        ensures few { length self.new ≤ MOST_ITEMS }
    {
        let count = items.len();
        let pieces = self.parts.len();
        if pieces > 0 {
            let last = &self.parts[pieces - 1];
            if last.items.len() + count <= MOST_IN_PIECE {
                let start = last.start;
                let both = joined(alloc, last.items.as_slice(), items.as_slice())?;
                let both = Rc::new(alloc, both)?;
                self.parts[pieces - 1] = Part { start, items: both };
                self.len += count;
                return Ok(());
            }
        }
        self.parts.push(Part {
            start: self.len,
            items,
        })?;
        self.len += count;
        Ok(())
    }
}

/// The number of the piece with item `n`.
pub(crate) fn part_with<T>(parts: &[Part<T>], n: usize) -> usize
    requires laid { IsLaid 0 parts.now }
    requires within { n < length (items_of parts.now) }
    ensures there { result < length parts.now }
    ensures begins { length (items_of (take result parts.now)) ≤ n }
    ensures ends { n < length (items_of (take (result + 1) parts.now)) }
{
    let mut low = 0;
    let mut high = parts.len();
    while high - low > 1 {
        let middle = low + (high - low) / 2;
        if parts[middle].start <= n {
            low = middle;
        } else {
            high = middle;
        }
    }
    low
}

/// Item `n` of these pieces.
fn item_in<T>(parts: &[Part<T>], n: usize) -> &T
    requires laid { IsLaid 0 parts.now }
    requires within { n < length (items_of parts.now) }
    ensures { result.now ≡ slice_index_or (items_of parts.now) n result.now }
{
    let part = &parts[part_with(parts, n)];
    &part.items[n - part.start]
}

/// The items of these pieces from `n` to the end of its piece.
fn run_in<T>(parts: &[Part<T>], n: usize) -> &[T]
    requires laid { IsLaid 0 parts.now }
    requires within { n < length (items_of parts.now) }
    ensures some { 0 < length result.now }
    ensures run { take (length result.now) (drop n (items_of parts.now)) ≡ result.now }
    ensures within { n + length result.now ≤ length (items_of parts.now) }
{
    let part = &parts[part_with(parts, n)];
    &part.items[n - part.start..]
}

/// These items and then those.
fn joined<T: Share>(alloc: Global, front: &[T], back: &[T]) -> Result<Vec<T>, AllocError>
    requires { length front.now + length back.now ≤ MOST_IN_PIECE }
    ensures { IfOk result (λ items. items.items ≡ front.now ++ back.now) }
{
    let mut items = Vec::with_capacity(alloc, front.len() + back.len())?;
    add_shared(&mut items, front)?;
    add_shared(&mut items, back)?;
    Ok(items)
}

/// Adds these items, and shares them.
fn add_shared<T: Share>(items: &mut Vec<T>, more: &[T]) -> Result<(), AllocError>
    ensures { OnOk result (items.new.items ≡ items.old.items ++ more.now) }
{
    for item in more {
        items.push(item.share()?)?;
    }
    Ok(())
}
