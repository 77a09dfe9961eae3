//! Nodes of the tree of brackets: what they are made of, and what they keep of all that lies in them.
#![tactic(auto)]

pub mod node;
pub mod tree;

pub use node::{Node, Sort};
pub use tree::Tree;
