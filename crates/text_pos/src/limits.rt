//! The limits that the command line sets: on nesting, visits, long lines and tabs.

/// The limits that the command line sets.
#[derive(Clone, Copy, Debug, PartialEq, Eq)]
pub struct Limits {
    /// How many brackets may be open at once.
    pub nesting: u32,
    /// How many visits one attempt of a pattern has.
    pub budget: u32,
    /// A line of so many characters or more has no brackets.
    pub long: u32,
    /// How many columns a tab takes at most.
    pub tab: u32,
}
