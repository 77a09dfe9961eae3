//! Laws of trees of brackets: their rows are those of the pairing, and when nodes can be reused.

ghost use Rattle.tree_defs.specs.Reuse.{WalkLaw, ReuseLaw};
ghost use Rattle.tree_defs.specs.Rows.{RowLaw};
ghost use Rattle.tree_defs.specs.Cuts.{CutLaw};

/// Pairing the marks of a tree by one stack gives the rows of a walk over the tree, and leaves open what the tree
/// leaves open, whatever was open before it.
pub fn trees_have_the_rows_of_the_pairing()
    ensures { WalkLaw }
{}

/// Pairing the marks of a node that can be reused leaves the open list as it was, and the rows are the node's own,
/// raised by that list.
pub fn nodes_can_be_reused()
    ensures { ReuseLaw }
{}

/// A tree that stands for the marks of a text has the whole rows of their pairing, with partners and inner ends.
pub fn standing_trees_have_the_rows()
    ensures { RowLaw }
{}

/// Each opener that is met at the nesting limit lies whole in a text of a tree that stands for the marks, and a text is
/// cut exactly where such an opener lies in it.
pub fn cut_texts_hold_the_openers_at_the_limit()
    ensures { CutLaw }
{}
