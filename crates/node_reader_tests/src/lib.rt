//! Tests of `node_reader`: what is read at rising offsets is what a walk over all nodes finds.
#![tactic(auto)]

#[cfg(test)]
mod tests;
#[cfg(test)]
mod texts;
#[cfg(test)]
mod walk;
