//! Laws of what new nodes, and nodes of an old tree, add to a list.

ghost use Rattle.reuse_parser.specs.AddLaws.{TextAdds, CutAdds, LoneAdds, PairAdds, FoundAdds};

/// What is made of the marks ahead adds to a list: the text up to the next mark, an opener that is met at the nesting
/// limit, a closer of nothing that is open, and a pair. Whatever stands behind such a node, stands behind it there.
pub fn new_nodes_add()
    ensures texts { TextAdds }
    ensures cuts { CutAdds }
    ensures closers { LoneAdds }
    ensures pairs { PairAdds }
{}

/// A node of a tree of old marks adds to a list of the new text, where no change lies between its start and its end, and
/// old and new marks agree outside the changes: it stands there for the marks of the new text, at another level and
/// below other pairs.
pub fn old_nodes_add()
    ensures { FoundAdds }
{}
