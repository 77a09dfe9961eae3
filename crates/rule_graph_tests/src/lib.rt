//! Tests of `rule_graph`: grammars with the rules that they give.
#![tactic(auto)]

#[cfg(test)]
mod tests;
