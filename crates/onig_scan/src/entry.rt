//! A pattern of a scanner, and where it may match.

ghost use Rattle.std.specs.Prelude.{◌≡◌, ℕ, ◌+◌, ◌<◌, ◌≤◌, ◌^◌, true, false, length, IfOk, IfSome, IsSomeAnd, IsTrue};
ghost use Rattle.onig_scan.specs.Rows.{IsSpared, IsSparedAt, IsSparedPast};
ghost use Rattle.std.specs.Rc.{rc_value};
ghost use Rattle.pattern_defs.specs.Attempt.{capture_of, outcome_of, last_hit_captures, attempt as attempted};
ghost use Rattle.onig_match.specs.Works.{IsPart};

use crate::front::Front;
use crate::front_of::front_of_all;
use crate::past::past_of_all;
use crate::rows::{CLASSES, ROW_VISITS, ROWS};
use onig_match::{Work, attempt};
use pattern_defs::{Flags, Outcome};
use pattern_tree::Pattern;
use std::alloc::{AllocError, Global};
use std::marker::Model;
use std::rc::Rc;

/// A pattern of a scanner, and what stands where it matches and before that, where this is known.
#[derive(Debug, Drop)]
pub(crate) struct Entry {
    pattern: Rc<Pattern>,
    front: Option<Front>,
    /// The characters of which it needs one before the place, unless the text begins there, where it may.
    past: Option<Front>,
    /// The same between two word characters.
    inner: Option<Front>,
}

impl Model for Entry {
    ghost use Rattle.std.specs.Rc.{rc_value};
    ghost use Rattle.pattern_defs.specs.Patterns.{Tree};

    ghost Value = { Tree };

    ghost use Rattle.onig_scan.specs.Entries.{HasFront};

    ghost view = { λ e. rc_value e.pattern };

    ghost invariant = { λ e. HasFront (rc_value e.pattern) e.front e.past e.inner };
}

impl Entry {
    pub(crate) fn of(alloc: Global, pattern: &Rc<Pattern>) -> Result<Entry, AllocError>
        ensures { IfOk result (λ e. e ≡ rc_value pattern.now) }
    {
        let front = front_of_all(alloc, pattern)?;
        let past = past_of_all(alloc, pattern, false)?;
        let inner = past_of_all(alloc, pattern, true)?;
        let pattern = pattern.clone()?;
        Ok(Entry {
            pattern,
            front,
            past,
            inner,
        })
    }

    /// How many groups the pattern has.
    pub(crate) fn groups(&self) -> u32
        ensures { result ≡ self.now.groups }
    {
        self.pattern.groups()
    }

    /// Whether the pattern may match where such a character stands.
    fn may_stand(&self, class: usize) -> bool
        ensures { (result ≡ false) → IsSparedAt self.now class ROW_VISITS }
    {
        match &self.front {
            Some(front) => front.cost > u64::from(ROW_VISITS) || front.may_have(class),
            None => true,
        }
    }

    /// Whether the pattern may match where such a character stands before the place.
    fn may_follow(&self, class: usize) -> bool
        ensures { (result ≡ false) → IsSparedPast false self.now class ROW_VISITS }
    {
        match &self.past {
            Some(past) => past.cost > u64::from(ROW_VISITS) || past.may_precede(class),
            None => true,
        }
    }

    /// The same between two word characters.
    fn may_go_on(&self, class: usize) -> bool
        ensures { (result ≡ false) → IsSparedPast true self.now class ROW_VISITS }
    {
        match &self.inner {
            Some(inner) => inner.cost > u64::from(ROW_VISITS) || inner.may_precede(class),
            None => true,
        }
    }

    /// Whether the pattern may match at the places of a row.
    pub(crate) fn may_match(&self, row: usize) -> bool
        requires { row < ROWS }
        ensures { (result ≡ false) → IsSpared self.now row ROW_VISITS }
    {
        if row < CLASSES {
            self.may_stand(row)
        } else if row < 2 * CLASSES {
            self.may_follow(row - CLASSES)
        } else {
            self.may_go_on(row - 2 * CLASSES)
        }
    }

    /// An attempt of the pattern, which is spared where it would miss for want of a character.
    pub(crate) fn attempt(&self, work: &mut Work, text: &[char], at: u32, flags: Flags) -> Outcome
        requires short { length text.now < 2 ^ 31 }
        requires inside { at ≤ length text.now }
        requires room { self.now.groups ≤ work.old.room }
        ensures outcome { result ≡ outcome_of (attempted self.now text.now at flags work.old.budget) }
        ensures work { work.new ≡ record work.old { hit = last_hit_captures (attempted self.now text.now at flags work.old.budget) work.old.hit } }
        ensures groups { result ≡ Outcome.Hit → length work.new.hit ≡ self.now.groups + 1 }
        ensures captures { result ≡ Outcome.Hit → (n : ℕ) →
            IfSome (capture_of work.new.hit n) (IsPart (length text.now)) }
        ensures whole { result ≡ Outcome.Hit → IsSomeAnd (capture_of work.new.hit 0) (λ place. place.from ≡ at) }
    {
        if let Some(front) = &self.front {
            if front.misses_at(text, at, work.budget()) {
                return Outcome::Miss;
            }
        }
        attempt(&self.pattern, work, text, at, flags)
    }
}
