//! What a rule of a grammar is, once its includes are resolved and its patterns are read: definitions alone.
#![tactic(auto)]
