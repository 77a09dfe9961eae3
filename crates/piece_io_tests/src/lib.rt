//! Tests of `piece_io`: the objects in memory, whole files, whole writes and cut lines.
#![tactic(auto)]

#[cfg(test)]
mod tests;
