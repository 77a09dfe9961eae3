//! The places to go back to, the steps of an attempt, and how it ends.

use crate::cells::{NodeAt, Rest};
use pattern_defs::Place;

/// What a group took before it took something else.
#[derive(Clone, Copy, Debug, PartialEq, Eq)]
pub(crate) struct Change {
    pub(crate) number: u32,
    pub(crate) old: Option<Place>,
}

/// How an entry goes on with the end of what was tried above it.
#[derive(Clone, Copy, Debug, PartialEq, Eq)]
pub(crate) enum Resume {
    /// Another way, to be tried at a miss.
    Other(Rest),
    /// The alternatives of a node from the number `way` on, each before the cell `next`.
    Alternatives {
        node: NodeAt,
        way: usize,
        next: u32,
    },
    AfterAhead {
        wanted: bool,
        rest: Rest,
    },
    /// The lookbehind of a node, with the arms from the number `arm` on still to be tried.
    AfterBehind {
        node: NodeAt,
        arm: usize,
        wanted: bool,
        rest: Rest,
    },
    AfterAtomic(Rest),
    /// What is behind a run of single characters, here and then at so many places before, each a character less.
    GiveBack {
        more: u32,
        rest: Rest,
    },
}

/// A place to go back to: how to go on there, and how many cells and changes there were.
#[derive(Clone, Copy, Debug, PartialEq, Eq)]
pub(crate) struct Entry {
    pub(crate) resume: Resume,
    pub(crate) at: u32,
    pub(crate) cells: u32,
    pub(crate) trail: u32,
}

/// An entry where alternatives that miss at once were passed, and how many visits they took.
#[derive(Clone, Copy, Debug, PartialEq, Eq)]
pub(crate) struct Passed {
    pub(crate) entry: Entry,
    pub(crate) more: u64,
}

/// What is still to match, at a place.
#[derive(Clone, Copy, Debug, PartialEq, Eq)]
pub(crate) struct Point {
    pub(crate) rest: Rest,
    pub(crate) at: u32,
}

/// What is next: a visit, or an end of the list in hand.
#[derive(Clone, Copy, Debug, PartialEq, Eq)]
pub(crate) enum Step {
    Go(Point),
    Found(u32),
    Failed,
}

/// What a visit leads to, and how many visits more were done in the same step.
#[derive(Clone, Copy, Debug, PartialEq, Eq)]
pub(crate) struct Visited {
    pub(crate) step: Step,
    pub(crate) more: u64,
}

/// How an attempt ends: at a place, nowhere, or by its budget.
#[derive(Clone, Copy, Debug, PartialEq, Eq)]
pub(crate) enum End {
    Found(u32),
    Failed,
    Spent,
}
