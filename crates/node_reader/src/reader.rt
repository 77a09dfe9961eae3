//! Reading the nodes of a tree at rising offsets.

ghost use Rattle.std.specs.Prelude.{◌≡◌, IfOk};
ghost use Rattle.text_pos.specs.Lengths.{IsLess};
ghost use Rattle.tree_defs.specs.Shape.{no_length};
ghost use Rattle.bracket_ast.specs.Shapes.{or_nothing, nows};
ghost use Rattle.node_reader.specs.Asks.{IsLongest};

use crate::ask::{Ask, outermost};
use crate::parts::START;
use crate::place::{Place, enter, go_on, leave, start_of};
use bracket_ast::{Node, Tree};
use std::alloc::{AllocError, Global};
use std::marker::Model;
use text_pos::{Length, minus};

/// Reads the nodes of a tree at rising offsets.
#[derive(Drop)]
pub struct Reader<'a> {
    tree: &'a Tree,
    /// The last offset that was asked for.
    reached: Length,
    /// Where it lies, if the tree has a root.
    place: Option<Place<'a>>,
}

impl<'a> Model for Reader<'a> {
    ghost use Rattle.node_reader.specs.Reading.{Reading, reading_code};

    ghost Value = { Reading };

    ghost coded = { reading_code };

    ghost use Rattle.node_reader.specs.Reaching.{reading_of, IsReader};

    ghost view = { reading_of };

    ghost invariant = { IsReader };
}

impl<'a> Reader<'a> {
    /// A reader at the start of a tree. All memory that later calls need is taken here.
    pub fn new(alloc: Global, tree: &'a Tree) -> Result<Reader<'a>, AllocError>
        ensures { IfOk result (λ r. r ≡ record { tree = or_nothing tree.entry.now.root; reached = no_length }) }
    {
        let place = match &tree.root {
            Some(root) => Some(start_of(alloc, root)?),
            None => None,
        };
        Ok(Reader {
            tree,
            reached: START,
            place,
        })
    }

    /// The longest node that starts at an offset and passes. None where none passes. The offset isn't before that of an
    /// earlier call. A walk over a tree by rising offsets takes time by its nodes, since the place is kept.
    pub fn longest(&mut self, offset: Length, ask: Ask) -> Option<&'a Node>
        requires { ¬ IsLess offset self.old.reached }
        ensures answer { IsLongest ask self.old.tree offset (nows result) }
        ensures reached { self.new ≡ record { tree = self.old.tree; reached = offset } }
    {
        let by = minus(offset, self.reached);
        self.reached = offset;
        let Some(place) = &mut self.place else {
            return None;
        };
        go_on(place, by);
        if !leave(place) {
            return None;
        }
        match enter(place) {
            Some(node) => outermost(node, ask),
            None => None,
        }
    }
}
