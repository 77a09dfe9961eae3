//! What a document is made of: settings, the rows of a text, and the answers that come of them. Definitions alone.
#![tactic(auto)]
