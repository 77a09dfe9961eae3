//! Where a reader is in a tree.
ghost use Rattle.std.specs.Prelude.{◌≡◌, ◌⊎◌, [], IfOk, IsTrue, ◌↔◌};
ghost use Rattle.text_pos.specs.Lengths.{plus, IsLess};
ghost use Rattle.tree_defs.specs.Shape.{length_of, no_length, Fits};
ghost use Rattle.bracket_ast.specs.Shapes.{nows};
ghost use Rattle.node_reader.specs.Paths.{IsPlace, IsSamePlace, StartsHere, root_of, offset_of};

use crate::parts::{START, behind, from_part, part_at};
use bracket_ast::Node;
use smallvec::SmallVec;
use std::alloc::{AllocError, Global};
use text_pos::{Length, is_zero, less};

/// A node of a path, and the number of the part of it to which the path leads.
#[derive(Clone, Copy, Default)]
pub(crate) struct Step<'a> {
    pub(crate) node: Option<&'a Node>,
    pub(crate) part: usize,
}

/// A node of a tree, how far into it an offset lies, and the path to the node from the root.
#[derive(Drop)]
pub(crate) struct Place<'a> {
    pub(crate) node: &'a Node,
    pub(crate) rest: Length,
    pub(crate) path: SmallVec<Step<'a>, 32>,
}

/// The start of a tree, with room for each path.
pub(crate) fn start_of<'a>(alloc: Global, root: &'a Node) -> Result<Place<'a>, AllocError>
    ensures is { IfOk result (λ p. IsPlace p) }
    ensures root { IfOk result (λ p. root_of p ≡ root.entry.now) }
    ensures offset { IfOk result (λ p. offset_of p ≡ no_length) }
{
    let mut path = SmallVec::new(alloc);
    path.reserve(65 * root.depth() as usize + root.height() as usize)?;
    Ok(Place {
        node: root,
        rest: START,
        path,
    })
}

/// Goes on by a length, in the same node.
pub(crate) fn go_on(place: &mut Place, by: Length)
    requires is { IsPlace place.old }
    requires fits { Fits (plus (offset_of place.old) by) }
    ensures is { IsPlace place.new }
    ensures root { root_of place.new ≡ root_of place.old }
    ensures offset { offset_of place.new ≡ plus (offset_of place.old) by }
{
    place.rest = behind(place.rest, by);
}

/// Leaves all nodes that end at the offset or before it. Whether one is left.
pub(crate) fn leave(place: &mut Place) -> bool
    requires { IsPlace place.old }
    ensures same { IsSamePlace place.old place.new }
    ensures within { IsTrue result → IsLess place.new.rest (length_of place.new.node.now) }
    ensures behind { IsTrue result ⊎ (¬ IsLess (offset_of place.old) (length_of (root_of place.old))) }
{
    while !less(place.rest, place.node.length()) {
        let Some(step) = place.path.pop() else {
            return false;
        };
        let Some(above) = step.node else {
            unreachable!();
        };
        place.rest = from_part(above, step.part, place.rest);
        place.node = above;
    }
    true
}

/// Goes down to where a node starts at the offset, and gives the outermost that does. None where none starts there.
pub(crate) fn enter<'a>(place: &mut Place<'a>) -> Option<&'a Node>
    requires is { IsPlace place.old }
    requires within { IsLess place.old.rest (length_of place.old.node.now) }
    ensures same { IsSamePlace place.old place.new }
    ensures found { StartsHere (root_of place.old) (offset_of place.old) (nows result) }
{
    if is_zero(place.rest) {
        return Some(place.node);
    }
    while let Some(part) = part_at(place.node, place.rest) {
        if is_zero(part.rest) {
            return Some(part.node);
        }
        place.path.push_reserved(Step {
            node: Some(place.node),
            part: part.number,
        });
        place.node = part.node;
        place.rest = part.rest;
    }
    None
}
