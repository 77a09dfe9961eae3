//! The law of fresh marks: how many marks of a new text are left to read, where the old one's pairs are known.
#![tactic(auto)]

ghost use Rattle.reuse_defs.specs.Unsettled.{FreshLaw};

/// Where each old mark has a row with a partner, at most so many marks of the new text are unsettled as are fresh.
pub fn unsettled_marks_are_fresh()
    ensures { FreshLaw }
{}
