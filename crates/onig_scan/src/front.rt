//! Characters of which one stands wherever nodes match.

ghost use Rattle.std.specs.Prelude.{◌≡◌, ◌≤◌, ◌+◌, [], true, false, IfOk, IfSome, IsSomeAnd, IsTrue};
ghost use Rattle.onig_scan.specs.Fronts.{IsWithin, IsWithout, IsWider};
ghost use Rattle.onig_scan.specs.Rows.{HasNone, HasNoneBefore};

use char_sets::CharSet;
use std::alloc::{AllocError, Global};

/// Characters of which one stands wherever nodes match, and how many visits an attempt takes at most to miss where
/// none of them stands. Where `stays`, the nodes may also hit there and take nothing. The same is kept of the character
/// that stands before a place: where `stays`, the text may also begin there.
#[derive(Debug, Drop)]
pub(crate) struct Front {
    pub(crate) set: CharSet,
    pub(crate) cost: u64,
    pub(crate) stays: bool,
}

impl Front {
    /// No characters at no visit.
    pub(crate) fn none(alloc: Global) -> Front
        ensures { result ≡ record { set = []; cost = 0; stays = false } }
    {
        Front {
            set: CharSet::empty(alloc),
            cost: 0,
            stays: false,
        }
    }

    /// The front of the end of a run: nothing is needed, and nothing is taken.
    pub(crate) fn at_end(alloc: Global) -> Front
        ensures { result ≡ record { set = []; cost = 1; stays = true } }
    {
        Front {
            set: CharSet::empty(alloc),
            cost: 1,
            stays: true,
        }
    }

    /// Whether a character of this kind may be in the set.
    pub(crate) fn may_have(&self, class: usize) -> bool
        ensures { (result ≡ false) → HasNone self.now.set class }
    {
        if class < 128 {
            self.set.has(class as u8 as char)
        } else {
            class == 128
        }
    }

    /// Whether a character of this kind may be in the set, or none where the text may begin.
    pub(crate) fn may_precede(&self, class: usize) -> bool
        ensures { (result ≡ false) → HasNoneBefore self.now.set self.now.stays class }
    {
        if class == 129 {
            self.stays
        } else {
            self.may_have(class)
        }
    }

    /// Whether no character of the set stands at the place, and the budget suffices to miss there.
    pub(crate) fn misses_at(&self, text: &[char], at: u32, budget: u32) -> bool
        ensures without { IsTrue result → IsWithout self.now.set text.now at }
        ensures enough { IsTrue result → self.now.cost ≤ budget }
    {
        if self.cost > u64::from(budget) {
            return false;
        }
        match text.get(at as usize) {
            None => true,
            Some(c) => !self.set.has(*c),
        }
    }
}

pub(crate) fn copied(alloc: Global, front: &Option<Front>) -> Result<Option<Front>, AllocError>
    ensures { IfOk result (λ o. IfSome o (λ f. IsSomeAnd front.now (λ g. f ≡ g))) }
{
    match front {
        None => Ok(None),
        Some(front) => Ok(Some(Front {
            set: front.set.copy(alloc)?,
            cost: front.cost,
            stays: front.stays,
        })),
    }
}

/// The same characters at so many visits more, where these can be counted.
pub(crate) fn with_visits(front: Option<Front>, visits: u64) -> Option<Front>
    ensures { IfSome result (λ f. IsSomeAnd front (λ g. f ≡ record g { cost = g.cost + visits })) }
{
    let front = front?;
    let cost = front.cost.checked_add(visits)?;
    Some(Front {
        set: front.set,
        cost,
        stays: front.stays,
    })
}

/// The characters of both at the visits of both, where these can be counted.
pub(crate) fn joined(
    alloc: Global,
    a: &Front,
    b: &Front,
    stays: bool,
) -> Result<Option<Front>, AllocError>
    ensures { IfOk result (λ o. IfSome o (λ f. IsWithin a.now.set f.set × IsWithin b.now.set f.set
        × (f.stays ≡ stays) × (f.cost ≡ a.now.cost + b.now.cost))) }
{
    let Some(cost) = a.cost.checked_add(b.cost) else {
        return Ok(None);
    };
    let set = a.set.union(alloc, &b.set)?;
    Ok(Some(Front { set, cost, stays }))
}

/// The same of two ways on, each of which may stay.
pub(crate) fn joined_ways(alloc: Global, a: &Front, b: &Front) -> Result<Option<Front>, AllocError>
    ensures { IfOk result (λ o. IfSome o (λ f. IsWider a.now f × IsWider b.now f × (f.cost ≡ a.now.cost + b.now.cost))) }
{
    if a.stays {
        joined(alloc, a, b, true)
    } else {
        joined(alloc, a, b, b.stays)
    }
}
