//! Tests of `tree_queries`: each descent answers what `pair_queries` answers over the rows of the same text.
#![tactic(auto)]

#[cfg(test)]
mod tests;
#[cfg(test)]
mod texts;
