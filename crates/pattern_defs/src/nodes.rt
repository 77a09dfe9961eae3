//! The nodes of a pattern.

use crate::lists::{Arms, ListIds};
use char_sets::CharSet;

/// The number of a list of nodes in its pattern, from 0.
#[derive(Clone, Copy, Debug, PartialEq, Eq)]
pub struct ListId(pub u32);

/// A place that holds or doesn't: `^ $ \A \G \z \Z \b \B`, in this order.
#[derive(Clone, Copy, Debug, PartialEq, Eq)]
pub enum Anchor {
    LineStart,
    LineEnd,
    First,
    Mark,
    End,
    LastEnd,
    WordEdge,
    NoWordEdge,
}

/// One way through a lookbehind, and how many characters it takes.
#[derive(Clone, Copy, Debug, PartialEq, Eq)]
pub struct Arm {
    pub length: u32,
    pub body: ListId,
}

/// One item of a pattern. The items in it stand in lists of their own, which it names.
#[derive(Debug, Drop)]
pub enum PatNode {
    /// A character of this set.
    One(CharSet),
    At(Anchor),
    /// One of these lists, the first that fits.
    Choice(ListIds),
    /// A numbered group. Groups are numbered from 1.
    Group {
        number: u32,
        body: ListId,
    },
    /// At least `least` times, and at most `most` times where there is such a bound.
    Repeat {
        body: ListId,
        least: u32,
        most: Option<u32>,
        greedy: bool,
    },
    /// Lookahead: whether what follows fits, where `wanted`, or doesn't.
    Ahead {
        body: ListId,
        wanted: bool,
    },
    /// Lookbehind: whether what stands before fits one of the arms, where `wanted`, or none.
    Behind {
        arms: Arms,
        wanted: bool,
    },
    /// The first way through this list, and no other.
    Atomic(ListId),
    /// What the group with this number took, once more; in any ASCII case where `fold`.
    Back {
        number: u32,
        fold: bool,
    },
}
