//! The rules of a grammar by their numbers, with resolved includes, read patterns and active lists, and its injections.
#![tactic(auto)]

mod active;
pub mod graph;
mod includes;
mod injections;
mod lists;
mod slots;
mod walk;

pub use graph::{Graph, GraphRefusal};
pub use rule_table::Injection;
