//! Which nodes pass.
ghost use Rattle.std.specs.Prelude.{◌≡◌, ◌↔◌, IsTrue};
ghost use Rattle.tree_defs.specs.Shape.{length_of, no_length, IsSome};
ghost use Rattle.bracket_ast.specs.Shapes.{nows};
ghost use Rattle.node_reader.specs.Asks.{HasRoom, IsPassing, IsFirst};
ghost use Rattle.node_reader.specs.Starts.{starting};

use crate::parts::{START, part_at};
use bracket_ast::Node;
use text_pos::{Kinds, Length, less};

/// Which nodes pass: those that can be reused below open brackets of these kinds, so many of them, at this nesting limit,
/// and that are shorter than the room, where there is one.
#[derive(Clone, Copy, Debug, PartialEq, Eq)]
pub struct Ask {
    pub above: Kinds,
    pub level: u32,
    pub limit: u32,
    pub room: Option<Length>,
}

/// The outermost node that passes, of a node and those in it that start where it starts.
pub(crate) fn outermost(node: &Node, ask: Ask) -> Option<&Node>
    requires { IsSome (length_of node.now) }
    ensures { IsFirst ask (starting node.entry.now no_length) (nows result) }
{
    if passes(node, ask) {
        return Some(node);
    }
    match part_at(node, START) {
        Some(part) => outermost(part.node, ask),
        None => None,
    }
}

fn passes(node: &Node, ask: Ask) -> bool
    ensures { IsTrue result ↔ IsPassing ask node.now }
{
    let fits = has_room(ask.room, node.length());
    let can = node.can_be_reused(ask.above, ask.level, ask.limit);
    fits && can
}

fn has_room(room: Option<Length>, length: Length) -> bool
    ensures { IsTrue result ↔ HasRoom room length }
{
    match room {
        Some(room) => less(length, room),
        None => true,
    }
}
