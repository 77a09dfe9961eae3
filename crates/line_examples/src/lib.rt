//! Worked examples of the run over a line, each a theorem.
#![tactic(auto)]
