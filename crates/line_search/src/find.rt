//! What a search finds: a match, and what its pattern belongs to.

use scope_defs::RuleId;

/// What a pattern belongs to: the end of the frame, or a rule.
#[derive(Clone, Copy, Debug, PartialEq, Eq)]
pub enum Of {
    End,
    Rule(RuleId),
}

/// A match, in characters from 0. What its groups took, the room for attempts tells.
#[derive(Clone, Copy, Debug, PartialEq, Eq)]
pub struct Match {
    pub of: Of,
    pub from: u32,
    pub to: u32,
}

/// What a search finds. `Spent` says that the budget of an attempt didn't suffice to tell.
#[derive(Clone, Copy, Debug, PartialEq, Eq)]
pub enum Find {
    Nothing,
    Spent,
    At(Match),
}
