//! Tests of `line_machine`: the lines of small texts by tables of rules that are made of rows, with ample memory. Tests of
//! crates above make their tables of such rows too.
#![tactic(auto)]

#[cfg(test)]
mod grammars;
#[cfg(test)]
mod injections;
#[cfg(test)]
mod limits;
mod lines;
pub mod rows;
#[cfg(test)]
mod tests;
#[cfg(test)]
mod worked;
