//! Tests of `script_words`: each line that is read and each reply letter by letter.
#![tactic(auto)]

#[cfg(test)]
mod tests;
