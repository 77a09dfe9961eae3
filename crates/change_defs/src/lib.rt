//! Changes of a text: which place of the new text a place of the old one is, when the marks of both texts agree outside
//! the changes, and how many marks a change makes fresh. Plain types, definitions and worked examples; no code.
#![tactic(auto)]

use text_pos::Length;

/// A piece of a text that is replaced: how far behind the text's start it begins, how long it is, and how long what
/// takes its place is.
#[derive(Clone, Copy, Debug, PartialEq, Eq)]
pub struct Change {
    pub start: Length,
    pub old: Length,
    pub new: Length,
}

/// A place in two texts: how far behind the start of the old text it lies, and how far behind that of the new one.
#[derive(Clone, Copy, Debug, PartialEq, Eq)]
pub struct Joint {
    pub old: Length,
    pub new: Length,
}

/// A change with the places where it starts and ends.
#[derive(Clone, Copy, Debug, PartialEq, Eq)]
pub struct Placed {
    pub change: Change,
    pub from: Joint,
    pub to: Joint,
}
