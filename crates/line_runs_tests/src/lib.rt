//! Tests of `line_runs`: another object that gives the tokens of lines, and a call that knows the trait alone.
#![tactic(auto)]

pub mod first;
pub mod whole;

pub use first::first_line;
pub use whole::Whole;

#[cfg(test)]
mod tests;
