//! Tests of `text_maker`: texts and edits as they were worked out apart from it.
#![tactic(auto)]

#[cfg(test)]
mod tests;
