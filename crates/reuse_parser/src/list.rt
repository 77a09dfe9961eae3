//! Makes lists, pairs and single nodes of marks alone, without an old tree.

ghost use Rattle.std.specs.Prelude.{◌≡◌, ℕ, ◌<◌, ◌≤◌, ◌&&◌, ◌∷◌, IfOk, IfSome, None, IsTrue};
ghost use Rattle.text_pos.specs.KindSet.{has_kind};
ghost use Rattle.tree_defs.specs.Items.{IsOpener};
ghost use Rattle.text_pos.specs.Lengths.{IsLess};
ghost use Rattle.pairing_defs.specs.declared.Role.TheVariants as role;
ghost use Rattle.bracket_ast.specs.Shapes.{or_nothing};
ghost use Rattle.reuse_parser.specs.Parsing.{start_of, next_start, IsAround, Follow, Stopped, Grows, Listed};

use crate::place::{Around, Place, closer_for, end_of, next_start, size_of};
use bracket_ast::{Node, Tree};
use pairing_defs::{Mark, Role};
use std::alloc::{AllocError, Global};
use text_pos::{Kinds, Length, less, minus};
use tree_concat::join;

/// A node, and the place behind it.
#[derive(Drop)]
pub(crate) struct Child<'a> {
    pub(crate) node: Node,
    pub(crate) behind: Place<'a>,
}

/// The tree of a list, and the place behind it.
#[derive(Drop)]
pub(crate) struct Parsed<'a> {
    pub(crate) tree: Tree,
    pub(crate) behind: Place<'a>,
}

/// The nodes from a place on, up to the closer of a pair around them or the text's end.
#[cycle(parsing)]
pub(crate) fn parse_list<'a>(
    alloc: Global,
    around: Around,
    from: Place<'a>,
) -> Result<Parsed<'a>, AllocError>
    requires around { IsAround around }
    requires follow { Follow from.at around.end from.marks.now }
    ensures { IfOk result (λ l. Listed around from.entry.at from.entry.marks.now (or_nothing l.tree.root) l.behind.at l.behind.marks.now) }
{
    let mut nodes = Vec::new(alloc);
    let mut place = from;
    while let Some(child) = parse_child(alloc, around, place)? {
        nodes.push(child.node)?;
        place = child.behind;
    }
    let tree = join(alloc, &nodes)?;
    Ok(Parsed {
        tree,
        behind: place,
    })
}

/// The node at a place, and none where the list ends there.
#[cycle(parsing)]
fn parse_child<'a>(
    alloc: Global,
    around: Around,
    place: Place<'a>,
) -> Result<Option<Child<'a>>, AllocError>
    requires around { IsAround around }
    requires follow { Follow place.at around.end place.marks.now }
    ensures some { IfOk result (λ o. IfSome o (λ c. Grows around place.entry.at place.entry.marks.now c.node c.behind.at c.behind.marks.now)) }
    ensures none { IfOk result (λ o. o ≡ None → Stopped around place.entry.at place.entry.marks.now) }
{
    let next = next_start(around.end, place.marks);
    if less(place.at, next) {
        return Ok(Some(text_up_to(alloc, around, place, next)?));
    }
    let Some((mark, rest)) = place.marks.split_first() else {
        return Ok(None);
    };
    match mark.role {
        Role::Opener(kind) if around.level < around.limit => {
            Ok(Some(parse_pair(alloc, around, *mark, kind, rest)?))
        }
        Role::Opener(_) => Ok(Some(cut_opener(alloc, around, *mark, rest)?)),
        Role::Closer(kinds) if kinds.meets(around.above) => Ok(None),
        Role::Closer(kinds) => Ok(Some(unexpected(alloc, around, *mark, kinds, rest)?)),
    }
}

/// The pair of an opener. A closer of a pair around it ends it too.
#[cycle(parsing)]
fn parse_pair<'a>(
    alloc: Global,
    around: Around,
    mark: Mark,
    kind: u32,
    rest: &'a [Mark],
) -> Result<Child<'a>, AllocError>
    requires around { IsAround around }
    requires room { around.level < around.limit }
    requires opener { mark.role ≡ role.Opener kind }
    requires follow { Follow (start_of mark) around.end (mark ∷ rest.now) }
    ensures { IfOk result (λ c. Grows around (start_of mark) (mark ∷ rest.now) c.node c.behind.at c.behind.marks.now) }
{
    let opener = Node::bracket(alloc, size_of(mark), kind)?;
    let from = Place {
        at: end_of(mark),
        marks: rest,
    };
    let inside = parse_list(alloc, around.within(kind), from)?;
    match closer_for(inside.behind.marks, kind) {
        Some(closing) => {
            let closer = Node::bracket(alloc, size_of(closing.mark), kind)?;
            let node = Node::pair(alloc, &opener, inside.tree.root.as_ref(), Some(&closer))?;
            let behind = Place {
                at: end_of(closing.mark),
                marks: closing.rest,
            };
            Ok(Child { node, behind })
        }
        None => {
            let node = Node::pair(alloc, &opener, inside.tree.root.as_ref(), None)?;
            let behind = inside.behind;
            Ok(Child { node, behind })
        }
    }
}

/// The text before the next mark.
fn text_up_to<'a>(
    alloc: Global,
    around: Around,
    place: Place<'a>,
    next: Length,
) -> Result<Child<'a>, AllocError>
    requires around { IsAround around }
    requires next { next ≡ next_start around.end place.marks.now }
    requires some { IsLess place.at next }
    requires follow { Follow place.at around.end place.marks.now }
    ensures { IfOk result (λ c. Grows around place.entry.at place.entry.marks.now c.node c.behind.at c.behind.marks.now) }
{
    let node = Node::text(alloc, minus(next, place.at), false)?;
    let behind = Place {
        at: next,
        marks: place.marks,
    };
    Ok(Child { node, behind })
}

/// An opener that is met at the limit: it is text.
fn cut_opener<'a>(
    alloc: Global,
    around: Around,
    mark: Mark,
    rest: &'a [Mark],
) -> Result<Child<'a>, AllocError>
    requires full { around.limit ≤ around.level }
    requires around { IsAround around }
    requires opener { IsOpener mark.role }
    requires follow { Follow (start_of mark) around.end (mark ∷ rest.now) }
    ensures { IfOk result (λ c. Grows around (start_of mark) (mark ∷ rest.now) c.node c.behind.at c.behind.marks.now) }
{
    let node = Node::text(alloc, size_of(mark), true)?;
    let behind = Place {
        at: end_of(mark),
        marks: rest,
    };
    Ok(Child { node, behind })
}

/// A closer of nothing that is open.
fn unexpected<'a>(
    alloc: Global,
    around: Around,
    mark: Mark,
    kinds: Kinds,
    rest: &'a [Mark],
) -> Result<Child<'a>, AllocError>
    requires around { IsAround around }
    requires closer { mark.role ≡ role.Closer kinds }
    requires apart { ¬ ((k : ℕ) × IsTrue (has_kind kinds k && has_kind around.above k)) }
    requires follow { Follow (start_of mark) around.end (mark ∷ rest.now) }
    ensures { IfOk result (λ c. Grows around (start_of mark) (mark ∷ rest.now) c.node c.behind.at c.behind.marks.now) }
{
    let node = Node::unexpected(alloc, size_of(mark), kinds)?;
    let behind = Place {
        at: end_of(mark),
        marks: rest,
    };
    Ok(Child { node, behind })
}
