//! Tests of `line_search`: what the patterns of a frame find, over tables of rules that are made of rows.
#![tactic(auto)]

mod rows;
#[cfg(test)]
mod searches;
