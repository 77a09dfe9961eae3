//! Worked examples of definitions, from those of texts and patterns up to those of sessions and reuse, each a theorem.
#![tactic(auto)]
