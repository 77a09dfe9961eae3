//! One form of a pattern among those that differ only in how their sets of characters are kept, and the pattern of a
//! text: definitions alone.
#![tactic(auto)]
