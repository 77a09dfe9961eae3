//! Attempts to match a pattern at a place, and the room that they take.

ghost use Rattle.std.specs.Prelude.{◌≡◌, ◌≢◌, ℕ, ◌+◌, ◌-◌, ◌*◌, ◌<◌, ◌≤◌, ◌^◌, [], length, replicate, slice_get, None, IfOk, IfSome, IsSomeAnd, IsTrue, option_and_then};
ghost use Rattle.pattern_defs.specs.declared.outcomes.Outcome.TheVariants as outcomes;
ghost use Rattle.pattern_defs.specs.Patterns.{is_flat, size_of, AreLists};
ghost use Rattle.pattern_defs.specs.Attempt.{attempt as attempt_of, before, capture_of, outcome_of, last_hit_captures};
ghost use Rattle.onig_match.specs.Goes.{goes};
ghost use Rattle.onig_match.specs.Machine.{subject, end_of};
ghost use Rattle.onig_match.specs.Sound.{IsSound, IsHere, HasRoom, SameRooms};
ghost use Rattle.onig_match.specs.Works.{Worked, IsPart};

use crate::area::{Area, start_of};
use crate::captures::Captures;
use crate::entries::{End, Point, Step};
use crate::pile::Pile;
use crate::searched::Searched;
use pattern_defs::{Flags, Outcome, Place};
use pattern_tree::Pattern;
use std::alloc::{AllocError, Global};
use std::marker::Model;

/// The room that attempts take, and the captures of the last hit. Contracts see how many visits an attempt may take,
/// how many groups a pattern may have, and the captures of the last hit, of which there are none before the first.
#[derive(Debug, Drop)]
pub struct Work {
    budget: u32,
    room: u32,
    hit: Captures,
    area: Area,
}

impl Model for Work {
    ghost use Rattle.onig_match.specs.Works.{Worked};

    ghost Value = { Worked };

    ghost use Rattle.onig_match.specs.Rooms.{worked_of, IsWork};

    ghost view = { worked_of };

    ghost invariant = { IsWork };
}

impl Area {
    fn new(alloc: Global, budget: u32, groups: u32) -> Result<Area, AllocError>
        ensures { IfOk result (λ area. area ≡ record {
          captures = record { room = groups; items = [] };
          cells = record { room = budget; items = [] };
          entries = record { room = budget; items = [] };
          trail = record { room = budget; items = [] };
        }) }
    {
        Ok(Area {
            captures: Captures::new(alloc, groups)?,
            cells: Pile::new(alloc, budget)?,
            entries: Pile::new(alloc, budget)?,
            trail: Pile::new(alloc, budget)?,
        })
    }

    /// As at the start of an attempt of a pattern with so many groups.
    fn reset(&mut self, groups: u32)
        requires { groups ≤ self.old.captures.room }
        ensures { self.new ≡ record {
          captures = record { room = self.old.captures.room; items = replicate (groups + 1) None };
          cells = record { room = self.old.cells.room; items = [] };
          entries = record { room = self.old.entries.room; items = [] };
          trail = record { room = self.old.trail.room; items = [] };
        } }
    {
        self.captures.reset(groups);
        self.cells.cut(0);
        self.entries.cut(0);
        self.trail.cut(0);
    }

    /// Goes on until the attempt ends.
    fn run(&mut self, on: &Searched<'_>, at: u32, budget: u32) -> End
        requires sound { IsSound on.now self.old }
        requires room { HasRoom self.old budget }
        requires at { at ≤ length on.now.text.now }
        requires short { length on.now.text.now < 2 ^ 31 }
        requires empty { self.old.entries.items ≡ [] }
        ensures end { result ≡ end_of (goes (subject on.now)
            (before on.now.pattern.now.lists on.now.pattern.now.top []) at self.old.captures.items budget) }
        ensures captures { self.new.captures.items ≡ last_hit_captures (goes (subject on.now)
            (before on.now.pattern.now.lists on.now.pattern.now.top []) at self.old.captures.items budget)
            self.new.captures.items }
        ensures groups { length self.new.captures.items ≡ on.now.pattern.now.groups + 1 }
        ensures names { AreLists 0 on.now.pattern.now.groups on.now.pattern.now.lists }
        ensures rooms { SameRooms self.old self.new }
    {
        let mut left = budget;
        let mut step = Step::Go(Point {
            rest: start_of(on.pattern.top(), 0),
            at,
        });
        loop {
            step = match step {
                Step::Go(point) => {
                    if left == 0 {
                        return End::Spent;
                    }
                    left -= 1;
                    let visited = self.visit(on, point);
                    if (left as u64) < visited.more {
                        return End::Spent;
                    }
                    left -= visited.more as u32;
                    visited.step
                }
                Step::Found(end) => match self.entries.pop() {
                    Some(entry) => self.after_hit(on, entry, end),
                    None => return End::Found(end),
                },
                Step::Failed => match self.entries.pop() {
                    Some(entry) => {
                        let back = self.go_back(on, entry);
                        if (left as u64) < back.more {
                            return End::Spent;
                        }
                        left -= back.more as u32;
                        back.step
                    }
                    None => return End::Failed,
                },
            };
        }
    }
}

impl Work {
    /// Room for attempts of so many visits at patterns of so many groups: all that any attempt takes.
    pub fn new(alloc: Global, budget: u32, groups: u32) -> Result<Work, AllocError>
        ensures { IfOk result (λ work. work ≡ record { budget = budget; room = groups; hit = [] }) }
    {
        Ok(Work {
            budget,
            room: groups,
            hit: Captures::new(alloc, groups)?,
            area: Area::new(alloc, budget, groups)?,
        })
    }

    /// How many visits an attempt may take.
    pub fn budget(&self) -> u32
        ensures { result ≡ self.now.budget }
    {
        self.budget
    }

    /// How many groups a pattern may have.
    pub fn room(&self) -> u32
        ensures { result ≡ self.now.room }
    {
        self.room
    }

    /// How many groups the pattern of the last hit has. Before the first hit, 0.
    pub fn groups(&self) -> u32
        ensures { result ≡ length self.now.hit - 1 }
    {
        self.hit.len().saturating_sub(1) as u32
    }

    /// What a group took in the last hit. The number 0 is the whole match.
    pub fn capture(&self, n: u32) -> Option<Place>
        ensures { result ≡ capture_of self.now.hit n }
    {
        if (n as u64) < self.hit.len() {
            self.hit.get(n)
        } else {
            None
        }
    }
}

/// Whether a pattern matches a text at `at`, in characters from 0. A hit leaves its captures in `work`, and any other
/// answer those of the last hit. `Miss` says that it doesn't match, and `Spent` that the budget of visits didn't suffice
/// to tell. The order of ways is that of Oniguruma's RE; the budget is this project's own.
pub fn attempt(pattern: &Pattern, work: &mut Work, text: &[char], at: u32, flags: Flags) -> Outcome
    requires text { length text.now < 2 ^ 31 }
    requires at { at ≤ length text.now }
    requires groups { pattern.now.groups ≤ work.old.room }
    ensures outcome { result ≡ outcome_of (attempt_of pattern.now text.now at flags work.old.budget) }
    ensures work { work.new ≡ record work.old {
      hit = last_hit_captures (attempt_of pattern.now text.now at flags work.old.budget) work.old.hit;
    } }
    ensures groups { result ≡ Outcome.Hit → length work.new.hit ≡ pattern.now.groups + 1 }
    // what each group took is a part of the text, and the whole match begins at the place
    ensures captures { result ≡ Outcome.Hit → (n : ℕ) →
        IfSome (capture_of work.new.hit n) (IsPart (length text.now)) }
    ensures whole { result ≡ Outcome.Hit → IsSomeAnd (capture_of work.new.hit 0) (λ place. place.from ≡ at) }
    ensures flat { IsTrue (is_flat pattern.now) →
        2 * size_of pattern.now + 2 ≤ work.old.budget → result ≢ Outcome.Spent }
{
    let on = Searched {
        pattern,
        text,
        flags,
    };
    work.area.reset(pattern.groups());
    match work.area.run(&on, at, work.budget) {
        End::Found(end) => {
            work.area.captures.set(0, Some(Place { from: at, to: end }));
            std::mem::swap(&mut work.hit, &mut work.area.captures);
            Outcome::Hit
        }
        End::Failed => Outcome::Miss,
        End::Spent => Outcome::Spent,
    }
}
