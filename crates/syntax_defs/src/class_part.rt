//! What may stand next in a character class of a pattern text.

/// What stands next in a class: the text's end, the closing bracket, a `&&`, a class of its own, or any other member.
#[derive(Clone, Copy, Debug, PartialEq, Eq)]
pub enum ClassPart {
    End,
    Close,
    And,
    Class,
    Member,
}
