//! The characters of a class so far: its unions, and what those before the last && have together.

ghost use Rattle.std.specs.Prelude.{◌≡◌, ◌<◌, ◌||◌, ℕ, Bool, IfOk, OnOk};
ghost use Rattle.char_sets.specs.Ranges.{in_set, IsSetOf};
ghost use Rattle.syntax_defs.specs.Classes as defs;
ghost use Rattle.onig_class.specs.SidesFit.{IsSides, IsBefore, in_some};

use char_sets::CharSet;
use std::alloc::{AllocError, Global};

/// The characters of a class so far: what all unions before the last `&&` have together, where there is one, and the
/// union since, as sets of which each has about half as many ranges as the one before it, or fewer.
#[derive(Debug, Drop)]
pub(crate) struct Sides {
    before: Option<CharSet>,
    here: Vec<CharSet>,
}

/// One set more. It is joined with those before it that aren't much larger, so that each range is moved few times,
/// however many members a class has.
fn put(alloc: Global, sets: &mut Vec<CharSet>, set: CharSet) -> Result<(), AllocError>
    ensures { OnOk result ((c : ℕ) → c < 1_114_112 → in_some sets.new.items c ≡ (in_some sets.old.items c || in_set set c)) }
{
    let mut set = set;
    'joining: while let Some(before) = sets.pop() {
        if before.range_count() / 2 > set.range_count() {
            sets.push(before)?;
            sets.push(set)?;
            return Ok(());
        }
        set = before.union(alloc, &set)?;
    }
    sets.push(set)?;
    Ok(())
}

/// The characters of these sets together.
fn union_of(alloc: Global, sets: Vec<CharSet>) -> Result<CharSet, AllocError>
    ensures { IfOk result (λ s. IsSetOf s (in_some sets.items)) }
{
    let mut sets = sets;
    let Some(mut whole) = sets.pop() else {
        return Ok(CharSet::empty(alloc));
    };
    'joining: while let Some(set) = sets.pop() {
        whole = set.union(alloc, &whole)?;
    }
    Ok(whole)
}

/// What a set and those before the last `&&` have together.
fn meet_of(alloc: Global, before: Option<CharSet>, here: CharSet) -> Result<CharSet, AllocError>
    ensures { (p q : ℕ → Bool) → IsBefore before p → IsSetOf here q
        → IfOk result (λ s. IsSetOf s (defs.together (record { before = p; here = q }))) }
{
    match before {
        None => Ok(here),
        Some(before) => before.meet(alloc, &here),
    }
}

impl Sides {
    pub(crate) fn none(alloc: Global) -> Sides
        ensures { IsSides result defs.no_members }
    {
        Sides {
            before: None,
            here: Vec::new(alloc),
        }
    }

    /// With one member more.
    pub(crate) fn with_member(self, alloc: Global, set: CharSet) -> Result<Sides, AllocError>
        ensures { (q : defs.Sides) (p : ℕ → Bool) → IsSides self q → IsSetOf set p
            → IfOk result (λ s. IsSides s (defs.with_member q p)) }
    {
        let Sides { before, mut here } = self;
        put(alloc, &mut here, set)?;
        Ok(Sides { before, here })
    }

    /// What both sides have.
    pub(crate) fn together(self, alloc: Global) -> Result<CharSet, AllocError>
        ensures { (q : defs.Sides) → IsSides self q → IfOk result (λ s. IsSetOf s (defs.together q)) }
    {
        let Sides { before, here } = self;
        let here = union_of(alloc, here)?;
        meet_of(alloc, before, here)
    }

    /// Behind a `&&`.
    pub(crate) fn next_side(self, alloc: Global) -> Result<Sides, AllocError>
        ensures { (q : defs.Sides) → IsSides self q → IfOk result (λ s. IsSides s (defs.next_side q)) }
    {
        Ok(Sides {
            before: Some(self.together(alloc)?),
            here: Vec::new(alloc),
        })
    }
}
