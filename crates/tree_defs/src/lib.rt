//! What a tree of brackets stands for: plain trees, the marks that they stand for, the rows of a walk over them, and
//! which nodes keep their rows in another place. Definitions, worked examples and laws; no code.
#![tactic(auto)]

pub mod laws;

pub use laws::{
    cut_texts_hold_the_openers_at_the_limit, nodes_can_be_reused, standing_trees_have_the_rows,
    trees_have_the_rows_of_the_pairing,
};
