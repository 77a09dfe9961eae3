//! Tests of `onig_match` and `onig_scan`, over patterns that are read from their texts.
#![tactic(auto)]

#[cfg(test)]
mod runs;
#[cfg(test)]
mod searches;
#[cfg(test)]
mod works;
