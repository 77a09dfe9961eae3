//! Greedy repeats of a single character.

ghost use Rattle.std.specs.Prelude.{◌≡◌, ◌+◌, ◌<◌, ◌≤◌, ◌^◌, [], ◌∷◌, cond, length, true, slice_get, MatchOption, Some, None};
ghost use Rattle.char_sets.specs.Ranges.{in_set};
ghost use Rattle.pattern_defs.specs.declared.nodes.PatNode.TheVariants.{One, Repeat};
ghost use Rattle.pattern_defs.specs.Patterns.{AreBounds, nodes_of};
ghost use Rattle.pattern_defs.specs.Attempt.{Node, is_char, is_greatest};
ghost use Rattle.onig_match.specs.Machine.{acted};
ghost use Rattle.onig_match.specs.Sound.{IsHere, IsRun, Visits};

use crate::anchors::char_at;
use crate::area::{Area, go};
use crate::cells::Rest;
use crate::entries::{Resume, Step, Visited};
use crate::searched::Searched;
use char_sets::CharSet;
use pattern_defs::{ListId, PatNode};

/// How often a repeat may go round.
#[derive(Clone, Copy, Debug, PartialEq, Eq)]
pub(crate) struct Bounds {
    pub(crate) least: u32,
    pub(crate) most: Option<u32>,
}

/// The single character that a list is, where it is no more than that.
pub(crate) fn only_char(nodes: &[PatNode]) -> Option<&CharSet>
    ensures { MatchOption result Unit (λ set. nodes.now ≡ One set.now ∷ []) }
{
    match nodes {
        [PatNode::One(set)] => Some(set),
        _ => None,
    }
}

/// Whether as many were taken as may be.
pub(crate) fn is_most(most: Option<u32>, taken: u32) -> bool
    ensures { result ≡ is_greatest most taken }
{
    match most {
        Some(most) => most == taken,
        None => false,
    }
}

/// Whether a character of the set stands at a place.
pub(crate) fn is_in(set: &CharSet, text: &[char], at: u32) -> bool
    ensures { result ≡ is_char (in_set set.now) (slice_get text.now at) }
{
    match char_at(text, at) {
        Some(c) => set.has(c),
        None => false,
    }
}

/// How many characters of the set stand from a place on, up to a greatest number.
fn run_length(set: &CharSet, text: &[char], at: u32, most: Option<u32>) -> u32
    requires at { at ≤ length text.now }
    requires short { length text.now < 2 ^ 31 }
    ensures run { IsRun (in_set set.now) text.now at most result }
    ensures within { at + result ≤ length text.now }
{
    let mut taken = 0;
    while !is_most(most, taken) && is_in(set, text, at + taken) {
        taken += 1;
    }
    taken
}

/// How many visits a run takes behind the first: two for each character, and one for the look at which it ended.
fn run_visits(taken: u32, ended: bool) -> u64
    ensures { result ≡ taken + taken + cond ended 0 1 }
{
    let taken = u64::from(taken);
    if ended {
        taken + taken
    } else {
        taken + taken + 1
    }
}

impl Area {
    /// A greedy repeat of a single character takes all that it may. What is behind it is tried there, and then at each
    /// place before, as long as enough was taken: one entry stands for all of these.
    pub(crate) fn visit_run(
        &mut self,
        on: &Searched<'_>,
        set: &CharSet,
        body: ListId,
        bounds: Bounds,
        rest: Rest,
        at: u32,
    ) -> Visited
        requires here { IsHere on.now self.old rest at }
        requires body { nodes_of on.now.pattern.now.lists body ≡ One set.now ∷ [] }
        requires bounds { AreBounds bounds.least bounds.most }
        ensures { Visits on.now self.old
            (acted on.now self.old (Node (Repeat body bounds.least bounds.most true)) rest at) self.new result }
    {
        let taken = run_length(set, on.text, at, bounds.most);
        let more = run_visits(taken, is_most(bounds.most, taken));
        if taken < bounds.least {
            return Visited {
                step: Step::Failed,
                more,
            };
        }
        let step = go(rest, at + taken);
        if taken == bounds.least {
            return Visited { step, more };
        }
        let others = taken - bounds.least - 1;
        self.enter(Resume::GiveBack { more: others, rest }, at + taken - 1);
        Visited { step, more }
    }
}
