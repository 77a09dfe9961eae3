//! Tests of `bracket_marks`: which texts are brackets, and the marks of lines.
#![tactic(auto)]

#[cfg(test)]
mod tests;
