//! A list that shares its pieces with other lists.

ghost use Rattle.std.specs.Prelude.{◌≡◌, ◌+◌, ◌*◌, ◌-◌, ◌<◌, ◌≤◌, [], ◌∷◌, ◌++◌, length, take, drop, slice_index_or, slice_set, IfOk, OnOk, OnErr};
ghost use Rattle.line_list.specs.Parts.{items_of, IsLaid};

use crate::pieces::{MOST_IN_PIECE, MOST_ITEMS, Part, Pieces, part_with};
use crate::share::Share;
use std::alloc::{AllocError, Global};
use std::marker::Model;
use std::mem;
use std::rc::Rc;

/// A list, whose pieces other lists may share. Clauses see the list of its items.
#[derive(Debug, Drop)]
pub struct LineList<T> {
    alloc: Global,
    pieces: Pieces<T>,
    /// The items behind these.
    rest: Vec<T>,
}

impl<T> Model for LineList<T> {
    ghost use Rattle.std.specs.Prelude.{List, ◌+◌, ◌++◌, ◌≤◌, length};
    ghost use Rattle.std.specs.Coded.{coded_list};
    ghost use Rattle.line_list.specs.declared.pieces.TheConstants.{MOST_IN_PIECE, MOST_ITEMS};

    ghost Value = { List T };

    ghost coded = { coded_list T.code };

    ghost view = { λ list. list.pieces ++ list.rest.items };

    ghost invariant = { λ list. (length list.rest.items ≤ MOST_IN_PIECE)
        × (length list.pieces + length list.rest.items ≤ MOST_ITEMS) };
}

impl<T> LineList<T> {
    pub fn new(alloc: Global) -> LineList<T>
        ensures { result ≡ [] }
    {
        LineList {
            alloc,
            pieces: Pieces::new(alloc),
            rest: Vec::new(alloc),
        }
    }

    pub fn len(&self) -> usize
        ensures count { result ≡ length self.now }
        ensures few { result ≤ MOST_ITEMS }
    {
        self.pieces.len() + self.rest.len()
    }

    /// Item `n`, from 0.
    pub fn get(&self, n: usize) -> &T
        requires { n < length self.now }
        ensures { result.now ≡ slice_index_or self.now n result.now }
    {
        let front = self.pieces.len();
        if n < front {
            self.pieces.get(n)
        } else {
            &self.rest[n - front]
        }
    }

    /// How many pieces the list is kept in, the items behind them as one.
    pub fn piece_count(&self) -> usize
        ensures { MOST_IN_PIECE * result ≤ 2 * length self.now + 2 * MOST_IN_PIECE }
    {
        self.pieces.count() + 1
    }

    /// The items from `n` to the end of a piece.
    pub(crate) fn run_from(&self, n: usize) -> &[T]
        requires { n < length self.now }
        ensures some { 0 < length result.now }
        ensures run { take (length result.now) (drop n self.now) ≡ result.now }
        ensures within { n + length result.now ≤ length self.now }
    {
        let front = self.pieces.len();
        if n < front {
            self.pieces.run_from(n)
        } else {
            &self.rest[n - front..]
        }
    }

    /// Adds an item. Where memory is wanting the list is as before.
    pub fn push(&mut self, item: T) -> Result<(), AllocError>
    where
        T: Drop,
        requires { length self.old < MOST_ITEMS }
        ensures ok { OnOk result (self.new ≡ self.old ++ item ∷ []) }
        ensures err { OnErr result (self.new ≡ self.old) }
    {
        if self.rest.len() < MOST_IN_PIECE {
            self.rest.push(item)?;
            return Ok(());
        }
        let mut rest = Vec::new(self.alloc);
        rest.push(item)?;
        let full = mem::replace(&mut self.rest, rest);
        if let Err(full) = self.pieces.push_full(self.alloc, full) {
            self.rest = full;
            return Err(AllocError);
        }
        Ok(())
    }
}

impl<T: Share> LineList<T> {
    /// Adds a piece, and shares it.
    fn push_piece(&mut self, items: &Rc<Vec<T>>) -> Result<(), AllocError>
        requires some { 0 < length items.now.value.items }
        requires few { length items.now.value.items ≤ MOST_IN_PIECE }
        requires fits { length self.old + length items.now.value.items ≤ MOST_ITEMS }
        ensures { OnOk result (self.new ≡ self.old ++ items.now.value.items) }
    {
        if !self.rest.is_empty() {
            let piece = mem::replace(&mut self.rest, Vec::new(self.alloc));
            self.pieces
                .add_piece(self.alloc, Rc::new(self.alloc, piece)?)?;
        }
        self.pieces.add_piece(self.alloc, items.clone()?)
    }

    /// Adds items, and shares them.
    fn push_items(&mut self, items: &[T]) -> Result<(), AllocError>
        requires { length self.old + length items.now ≤ MOST_ITEMS }
        ensures { OnOk result (self.new ≡ self.old ++ items.now) }
    {
        for item in items {
            self.push(item.share()?)?;
        }
        Ok(())
    }

    /// Adds the items of a piece from `first` to `last`, and shares the piece where these are all.
    fn push_part(&mut self, items: &Rc<Vec<T>>, first: usize, last: usize) -> Result<(), AllocError>
        requires rises { first < last }
        requires within { last ≤ length items.now.value.items }
        requires few { length items.now.value.items ≤ MOST_IN_PIECE }
        requires fits { length self.old + (last - first) ≤ MOST_ITEMS }
        ensures { OnOk result (self.new ≡ self.old ++ take (last - first) (drop first items.now.value.items)) }
    {
        if first == 0 && last == items.len() {
            self.push_piece(items)
        } else {
            self.push_items(&items[first..last])
        }
    }

    /// Adds `count` items of these pieces, from item `from` on.
    fn push_parts(&mut self, parts: &[Part<T>], from: usize, count: usize) -> Result<(), AllocError>
        requires laid { IsLaid 0 parts.now }
        requires few { length (items_of parts.now) ≤ MOST_ITEMS }
        requires within { from + count ≤ length (items_of parts.now) }
        requires fits { length self.old + count ≤ MOST_ITEMS }
        ensures { OnOk result (self.new ≡ self.old ++ take count (drop from (items_of parts.now))) }
    {
        if count == 0 {
            return Ok(());
        }
        let end = from + count;
        let mut at = from;
        let mut n = part_with(parts, from);
        while at < end {
            let part = &parts[n];
            let last = part.items.len().min(end - part.start);
            self.push_part(&part.items, at - part.start, last)?;
            at = part.start + last;
            n += 1;
        }
        Ok(())
    }

    /// Adds `count` items of a list, from item `from` on. Pieces that lie within are shared whole. Where memory is
    /// wanting, a front of them may have been added, and items may be gone: the list is to be let go.
    pub fn push_run(
        &mut self,
        list: &LineList<T>,
        from: usize,
        count: usize,
    ) -> Result<(), AllocError>
        requires within { from + count ≤ length list.now }
        requires fits { length self.old + count ≤ MOST_ITEMS }
        ensures { OnOk result (self.new ≡ self.old ++ take count (drop from list.now)) }
    {
        let front = list.pieces.len();
        let end = from + count;
        let first = from.min(front);
        self.push_parts(list.pieces.parts(), first, end.min(front) - first)?;
        self.push_items(&list.rest[from.max(front) - front..end.max(front) - front])
    }

    /// The same list. Both share their pieces.
    pub fn copy(&self, alloc: Global) -> Result<LineList<T>, AllocError>
        ensures { IfOk result (λ list. list ≡ self.now) }
    {
        let mut list = LineList::new(alloc);
        list.push_run(self, 0, self.len())?;
        Ok(list)
    }

    /// Puts an item in the place of item `n`. Where memory is wanting the list is as before.
    pub fn put(&mut self, n: usize, item: T) -> Result<(), AllocError>
        requires { n < length self.old }
        ensures ok { OnOk result (self.new ≡ slice_set self.old n item) }
        ensures err { OnErr result (self.new ≡ self.old) }
    {
        let mut list = LineList::new(self.alloc);
        list.push_run(self, 0, n)?;
        list.push(item)?;
        list.push_run(self, n + 1, self.len() - (n + 1))?;
        *self = list;
        Ok(())
    }
}
