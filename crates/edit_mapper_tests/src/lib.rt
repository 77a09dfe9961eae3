//! Tests of `edit_mapper`: what is found by halves beside what a plain walk over the changes finds.
#![tactic(auto)]

#[cfg(test)]
mod changes;
#[cfg(test)]
mod tests;
#[cfg(test)]
mod walk;
