//! Lists of numbers of node lists, and of the arms of a lookbehind.

use crate::nodes::{Arm, ListId};
use text_pos::Items;

/// Numbers of lists of nodes.
pub type ListIds = Items<ListId>;

/// The arms of a lookbehind.
pub type Arms = Items<Arm>;
