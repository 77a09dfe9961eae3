//! Tests of the trees of brackets: each public call with ample memory, and what it answers.
#![tactic(auto)]

#[cfg(test)]
mod tests;
