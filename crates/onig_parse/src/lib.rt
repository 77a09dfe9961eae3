//! Patterns: how they are read from their text.
#![tactic(auto)]

mod arms;
mod body;
mod group;
mod head;
mod kept;
mod late;
mod laws;
mod lengths;
mod lower;
mod parse;
mod parsed;
mod read;
mod reader;
mod sight;
mod single;
mod steps;

pub use char_sets::{CharRange, CharSet};
pub use laws::{each_fault_fits_its_text, members_suffice, plain_texts_are_read, steps_suffice};
pub use pattern_defs::{Anchor, Arm, Arms, ListId, ListIds, PatNode};
pub use pattern_tree::{Pattern, PatternDraft};
pub use read::{PatternReader, read_pattern};
pub use syntax_defs::PatternRefusal;
