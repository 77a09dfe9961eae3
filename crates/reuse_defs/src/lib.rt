//! A tree that stands for a text, an old one whose text was changed since, the marks of its pairs that no change meets
//! or touches, and how many marks are left to read. Definitions and worked examples; no code.
#![tactic(auto)]
