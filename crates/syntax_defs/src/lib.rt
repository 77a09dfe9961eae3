//! Reading pattern texts: why a text is refused, and the definitions of what it stands for.
#![tactic(auto)]

pub mod class_part;
pub mod items;
pub mod limits;
pub mod refusal;

pub use class_part::ClassPart;
pub use items::{Bounds, Form, GroupName, Head, Item, Options, Sight, Span, Target};
pub use limits::{
    GREATER_COUNT, MOST_COUNT, MOST_LENGTH, MOST_LEVELS, MOST_PATTERN_CHARS, MOST_REPEATS,
};
pub use refusal::PatternRefusal;
