//! Tests of `grammar_json`: files as they are read, and each kind of wrong value with its pointer.
#![tactic(auto)]

#[cfg(test)]
mod bracket_tests;
#[cfg(test)]
mod tests;
