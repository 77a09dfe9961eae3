//! Tests of `document`: what it answers over two objects that give the tokens of lines, with ample memory.
#![tactic(auto)]

pub mod marked;

pub use marked::Marked;

#[cfg(test)]
mod shown;
#[cfg(test)]
mod steps;
#[cfg(test)]
mod tests;
