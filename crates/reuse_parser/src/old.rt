//! Finds a node of the old tree that can be taken at a place of the new text.

ghost use Rattle.std.specs.Prelude.{◌≡◌, IfSome, None, true};
ghost use Rattle.change_defs.specs.Changes.{are_in_order};
ghost use Rattle.reuse_parser.specs.Reusing.{IsFound};
ghost use Rattle.reuse_parser.specs.Olds.{IsReady, IsSame};
ghost use Rattle.reuse_parser.specs.Counting.{NonePasses};

use crate::place::Around;
use bracket_ast::Node;
use edit_mapper::Mapper;
use node_reader::{Ask, Reader};
use text_pos::Length;

/// What may be taken from an old tree: the changes since it was made, and a reader of its nodes.
#[derive(Drop)]
pub(crate) struct Old<'a> {
    pub(crate) mapper: Mapper<'a>,
    pub(crate) reader: Reader<'a>,
}

/// A node of the old tree that has a row, stands at this place of the new text too, and keeps its rows there. None only
/// where no closed pair with its opener in one line is such.
pub(crate) fn node_at<'a>(old: &mut Old<'a>, at: Length, around: Around) -> Option<&'a Node>
    requires ready { IsReady old.old at }
    requires order { are_in_order old.old.mapper ≡ true }
    ensures found { IfSome result (λ t. IsFound old.old.reader.tree old.old.mapper around at t.now) }
    ensures none { result ≡ None → NonePasses old.old.reader.tree old.old.mapper around at }
    ensures same { IsSame old.old old.new }
    ensures ready { IsReady old.new at }
{
    let offset = old.mapper.before(at)?;
    let room = old.mapper.distance(at);
    let ask = Ask {
        above: around.above,
        level: around.level,
        limit: around.limit,
        room,
    };
    let node = old.reader.longest(offset, ask)?;
    if node.is_bare() { None } else { Some(node) }
}
