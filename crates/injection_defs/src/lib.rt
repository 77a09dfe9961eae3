//! What an injection of a grammar is: rules that are searched besides those of an open rule, where an entry of a selector
//! holds. Definitions alone.
#![tactic(auto)]
