//! A list of edits.

use crate::Edit;
use text_pos::Items;

/// A list of edits.
pub type Edits = Items<Edit>;
