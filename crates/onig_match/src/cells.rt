//! The parts of what is still to match.

use pattern_defs::ListId;

/// The rest of a list, from an item on, and what is behind it: the cell with this number, or nothing at 0.
#[derive(Clone, Copy, Debug, PartialEq, Eq)]
pub(crate) struct Rest {
    pub(crate) list: ListId,
    pub(crate) next: u32,
    pub(crate) index: usize,
}

/// A node of a pattern.
#[derive(Clone, Copy, Debug, PartialEq, Eq)]
pub(crate) struct NodeAt {
    pub(crate) list: ListId,
    pub(crate) index: usize,
}

/// What a repeat node says.
#[derive(Clone, Copy, Debug, PartialEq, Eq)]
pub(crate) struct Repeated {
    pub(crate) body: ListId,
    pub(crate) least: u32,
    pub(crate) most: Option<u32>,
    pub(crate) greedy: bool,
}

/// A part of what is still to match. Each ends with the rest of a list.
#[derive(Clone, Copy, Debug, PartialEq, Eq)]
pub(crate) enum Cell {
    Nodes(Rest),
    /// The end of a group that began at a place.
    GroupEnd {
        group: u32,
        from: u32,
        rest: Rest,
    },
    /// A repeat that was done some times, the last time begun at a place.
    Iteration {
        repeat: Repeated,
        count: u32,
        begun: u32,
        rest: Rest,
    },
}

/// The first of what is still to match.
#[derive(Clone, Copy, Debug, PartialEq, Eq)]
pub(crate) enum Front {
    AtEnd,
    /// The first node of this rest.
    AtNode(Rest),
    AtGroupEnd {
        group: u32,
        from: u32,
        rest: Rest,
    },
    AtIteration {
        repeat: Repeated,
        count: u32,
        begun: u32,
        rest: Rest,
    },
}
