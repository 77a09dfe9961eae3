//! What an attempt and a search answer, and what a search knows of its text.

/// What a search knows of its text. `first` says whether `\A` holds at 0, and `anchor` where `\G` holds, in characters
/// from 0.
#[derive(Clone, Copy, Debug, PartialEq, Eq)]
pub struct Flags {
    pub first: bool,
    pub anchor: Option<u32>,
}

/// Part of a text, from the character `from` to the one before `to`.
#[derive(Clone, Copy, Debug, PartialEq, Eq)]
pub struct Place {
    pub from: u32,
    pub to: u32,
}

/// The answer of an attempt. `Spent` says that the budget of visits didn't suffice to tell.
#[derive(Clone, Copy, Debug, PartialEq, Eq)]
pub enum Outcome {
    Hit,
    Miss,
    Spent,
}

/// The answer of a search over several patterns, which count from 0.
#[derive(Clone, Copy, Debug, PartialEq, Eq)]
pub enum Found {
    /// The pattern `index` matches. Where, its captures tell.
    At { index: u32 },
    Nowhere,
    /// The attempt of the pattern `index` at `at`, in characters from 0, was spent.
    Spent { index: u32, at: u32 },
}
