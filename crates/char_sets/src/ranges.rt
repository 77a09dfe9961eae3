//! The ranges of a set: none, one, or several that sets share.

ghost use Rattle.std.specs.Prelude.{◌≡◌, IfOk};
ghost use Rattle.char_sets.specs.Kept.{ranges_of};

use crate::char_set::CharRange;
use std::alloc::AllocError;
use std::rc::RcSlice;
use std::slice;

/// The ranges of a set: none, one, or several that sets share.
#[derive(Debug, Drop)]
pub(crate) enum Ranges {
    Nothing,
    One(CharRange),
    Shared(RcSlice<CharRange>),
}

impl Ranges {
    pub(crate) fn of_vec(ranges: Vec<CharRange>) -> Result<Ranges, AllocError>
        ensures { IfOk result (λ kept. ranges_of kept ≡ ranges.items) }
    {
        match ranges.as_slice() {
            [] => Ok(Ranges::Nothing),
            [range] => Ok(Ranges::One(*range)),
            _ => Ok(Ranges::Shared(RcSlice::from_vec(ranges)?)),
        }
    }

    pub(crate) fn as_slice(&self) -> &[CharRange]
        ensures { result.now ≡ ranges_of self.now }
    {
        match self {
            Ranges::Nothing => &[],
            Ranges::One(range) => slice::from_ref(range),
            Ranges::Shared(ranges) => ranges.as_slice(),
        }
    }

    /// The same ranges, shared.
    pub(crate) fn copy(&self) -> Result<Ranges, AllocError>
        ensures { IfOk result (λ kept. ranges_of kept ≡ ranges_of self.now) }
    {
        match self {
            Ranges::Nothing => Ok(Ranges::Nothing),
            Ranges::One(range) => Ok(Ranges::One(*range)),
            Ranges::Shared(ranges) => Ok(Ranges::Shared(ranges.clone()?)),
        }
    }
}
