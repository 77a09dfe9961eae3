//! The state of an attempt besides its place.

ghost use Rattle.std.specs.Prelude.{◌≡◌, ◌+◌, ◌-◌, ◌<◌, ◌≤◌, ◌∷◌, ◌==◌, ◌&&◌, nat_lt, not, length, Some};
ghost use Rattle.pattern_defs.specs.Attempt.{Again, is_greatest};
ghost use Rattle.onig_match.specs.Machine.{chain, todo_of, front_todo, captures_at, kept, acted, with_entry};
ghost use Rattle.onig_match.specs.Sound.{IsRest, IsFront, IsSound, IsHere, HasRoom, AddsCell, Takes, Leads};

use crate::captures::Captures;
use crate::cells::{Cell, Front, Repeated, Rest};
use crate::entries::{Change, Entry, Point, Resume, Step};
use crate::pile::Pile;
use crate::runs::is_most;
use crate::searched::Searched;
use pattern_defs::{ListId, Place};

/// The state of an attempt besides its place: what groups took, the parts of what is still to match, the places to go
/// back to, and what groups took before.
#[derive(Debug, Drop)]
pub(crate) struct Area {
    pub(crate) captures: Captures,
    pub(crate) cells: Pile<Cell>,
    pub(crate) entries: Pile<Entry>,
    pub(crate) trail: Pile<Change>,
}

/// The start of a list, before the cell with this number.
pub(crate) fn start_of(list: ListId, next: u32) -> Rest
    ensures { result ≡ record { list = list; next = next; index = 0 } }
{
    Rest {
        list,
        next,
        index: 0,
    }
}

pub(crate) fn go(rest: Rest, at: u32) -> Step
    ensures { result ≡ Step.Go (record { rest = rest; at = at }) }
{
    Step::Go(Point { rest, at })
}

/// Whether the last iteration took nothing.
fn is_stuck(count: u32, begun: u32, at: u32) -> bool
    ensures { result ≡ (nat_lt 0 count && (at == begun)) }
{
    count > 0 && at == begun
}

/// Whether as many iterations were done as may be.
fn is_done(repeat: Repeated, count: u32) -> bool
    ensures { result ≡ (not (nat_lt count repeat.least) && is_greatest repeat.most count) }
{
    count >= repeat.least && is_most(repeat.most, count)
}

impl Area {
    /// The first of what is still to match.
    pub(crate) fn front(&self, on: &Searched<'_>, rest: Rest) -> Front
        requires sound { IsSound on.now self.now }
        requires rest { IsRest on.now.pattern.now (length self.now.cells.items) rest }
        ensures todo { front_todo on.now.pattern.now.lists self.now.cells.items result
            ≡ todo_of on.now.pattern.now.lists self.now.cells.items rest }
        ensures sound { IsFront on.now.pattern.now (length on.now.text.now) (length self.now.cells.items) result }
    {
        let mut rest = rest;
        while rest.index >= on.pattern.list(rest.list).len() {
            if rest.next == 0 {
                return Front::AtEnd;
            }
            match self.cells.item(rest.next) {
                Cell::Nodes(more) => rest = more,
                Cell::GroupEnd { group, from, rest } => {
                    return Front::AtGroupEnd { group, from, rest };
                }
                Cell::Iteration {
                    repeat,
                    count,
                    begun,
                    rest,
                } => {
                    return Front::AtIteration {
                        repeat,
                        count,
                        begun,
                        rest,
                    };
                }
            }
        }
        Front::AtNode(rest)
    }

    /// A number at which the rest begins. A list at its end needs no cell.
    pub(crate) fn behind(&mut self, on: &Searched<'_>, rest: Rest) -> u32
        requires sound { IsSound on.now self.old }
        requires room { HasRoom self.old 1 }
        requires rest { IsRest on.now.pattern.now (length self.old.cells.items) rest }
        ensures todo { chain on.now.pattern.now.lists self.new.cells.items result
            ≡ todo_of on.now.pattern.now.lists self.old.cells.items rest }
        ensures number { result ≤ length self.new.cells.items }
        ensures adds { AddsCell on.now self.old self.new }
    {
        if rest.index >= on.pattern.list(rest.list).len() {
            return rest.next;
        }
        self.cells.push(Cell::Nodes(rest));
        self.cells.len()
    }

    /// A place to go back to.
    pub(crate) fn enter(&mut self, resume: Resume, at: u32)
        requires { length self.old.entries.items < self.old.entries.room }
        ensures { self.new ≡ with_entry self.old (record {
          resume = resume;
          at = at;
          cells = length self.old.cells.items;
          trail = length self.old.trail.items;
        }) }
    {
        let cells = self.cells.len();
        let trail = self.trail.len();
        self.entries.push(Entry {
            resume,
            at,
            cells,
            trail,
        });
    }

    /// A group took something.
    pub(crate) fn take(&mut self, number: u32, taken: Option<Place>)
        requires group { number < length self.old.captures.items }
        requires room { length self.old.trail.items < self.old.trail.room }
        ensures { Takes self.old self.new number taken }
    {
        let old = self.captures.get(number);
        self.trail.push(Change { number, old });
        self.captures.set(number, taken);
    }

    /// The cells and captures of when there were so many cells and changes.
    pub(crate) fn rewind(&mut self, on: &Searched<'_>, cells: u32, trail: u32)
        requires sound { IsSound on.now self.old }
        ensures { self.new ≡ record self.old {
          cells = record self.old.cells { items = kept cells self.old.cells.items };
          trail = record self.old.trail { items = kept trail self.old.trail.items };
          captures = record self.old.captures {
            items = captures_at trail self.old.trail.items self.old.captures.items;
          };
        } }
    {
        self.cells.cut(cells);
        while self.trail.len() > trail {
            if let Some(change) = self.trail.pop() {
                self.captures.set(change.number, change.old);
            }
        }
    }

    /// An iteration more or the rest, and where both are open, a place to go back to.
    pub(crate) fn repeat(
        &mut self,
        on: &Searched<'_>,
        repeat: Repeated,
        count: u32,
        begun: u32,
        rest: Rest,
        at: u32,
    ) -> Step
        requires here { IsHere on.now self.old rest at }
        requires body { repeat.body.0 < length on.now.pattern.now.lists }
        requires count { count ≤ length self.old.cells.items }
        ensures { Leads on.now 1 self.old (acted on.now self.old
            (Again repeat.body repeat.least repeat.most repeat.greedy count begun) rest at) self.new result }
    {
        if is_stuck(count, begun, at) || is_done(repeat, count) {
            return go(rest, at);
        }
        self.cells.push(Cell::Iteration {
            repeat,
            count: count + 1,
            begun: at,
            rest,
        });
        let more = start_of(repeat.body, self.cells.len());
        if count < repeat.least {
            return go(more, at);
        }
        if repeat.greedy {
            self.enter(Resume::Other(rest), at);
            return go(more, at);
        }
        self.enter(Resume::Other(more), at);
        go(rest, at)
    }
}
