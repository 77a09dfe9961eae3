//! Tests of the parser: the trees of texts have the rows that pairing their marks by one stack gives, whether they are
//! made of all marks or with nodes of an old tree.
#![tactic(auto)]

#[cfg(test)]
mod edits;
#[cfg(test)]
mod fresh;
#[cfg(test)]
mod given;
#[cfg(test)]
mod reparse_tests;
#[cfg(test)]
mod stage;
#[cfg(test)]
mod tests;
#[cfg(test)]
mod walk;
