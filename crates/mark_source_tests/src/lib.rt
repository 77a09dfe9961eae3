//! Tests of `mark_source`: the marks of small texts, one after the other, from the places that are sought.
#![tactic(auto)]

#[cfg(test)]
mod tests;
