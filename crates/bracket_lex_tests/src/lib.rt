//! Tests of `bracket_lex`: the rows of texts, and lists of lines with their marks.
#![tactic(auto)]

#[cfg(test)]
mod tests;
