//! A law: of the nodes that start at an offset and pass, the longest is found.

ghost use Rattle.node_reader.specs.Laws.{LongestLaw};

/// The node that is found is at least as long as each other node that starts at the offset and passes. Where none is
/// found, none passes.
pub fn the_longest_is_found()
    ensures { LongestLaw }
{}
