//! Walking the items of a list in order.

ghost use Rattle.std.specs.Prelude.{◌≡◌, ◌≤◌, length};
ghost use Rattle.std.specs.Iterator.{YieldsFirstBy, item_count};

use crate::list::LineList;
use crate::pieces::MOST_ITEMS;
use std::marker::Model;

/// The items of a list in order, seen as the list of those that are left.
#[derive(Drop)]
pub struct Items<'a, T> {
    list: &'a LineList<T>,
    /// The items that are left of the piece that it is in.
    run: &'a [T],
    /// The number of the first item behind these.
    next: usize,
}

impl<'a, T> Model for Items<'a, T> {
    ghost use Rattle.std.specs.Prelude.{List, ◌++◌, drop};
    ghost use Rattle.std.specs.Coded.{coded_list};

    ghost Value = { List T };

    ghost coded = { coded_list T.code };

    ghost view = { λ it. it.run.now ++ drop it.next it.list.now };
}

impl<T> LineList<T> {
    /// The items in order.
    pub fn iter(&self) -> Items<'_, T>
        ensures items { result ≡ self.now }
        ensures few { length result ≤ MOST_ITEMS }
    {
        let _few = self.len();
        Items {
            list: self,
            run: &[],
            next: 0,
        }
    }
}

impl<'a, T> Iterator for Items<'a, T> {
    type Item = &'a T;

    ghost next_gives = { YieldsFirstBy (λ item. item.now) (λ rest. rest) };

    ghost remaining = { item_count (λ rest. rest) };

    fn next(&mut self) -> Option<&'a T> {
        if let Some((item, rest)) = self.run.split_first() {
            self.run = rest;
            return Some(item);
        }
        if self.next >= self.list.len() {
            return None;
        }
        let run = self.list.run_from(self.next);
        self.next += run.len();
        self.run = &run[1..];
        Some(&run[0])
    }
}
