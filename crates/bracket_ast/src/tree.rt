//! A tree of brackets, with a root unless there is nothing.

use crate::node::Node;

/// A tree of brackets. There is no root where there is nothing.
#[derive(Drop)]
pub struct Tree {
    pub root: Option<Node>,
}
