//! Makes lists of nodes of an old tree, where such can be taken, and else of marks that are read.

ghost use Rattle.std.specs.Prelude.{◌≡◌, ◌<◌, ◌≤◌, IfOk, IfSome, None, Some, true, false};
ghost use Rattle.text_pos.specs.declared.length.Length.{Length};
ghost use Rattle.text_pos.specs.Lengths.{plus, IsLess};
ghost use Rattle.pairing_defs.specs.declared.Role.TheVariants as role;
ghost use Rattle.mark_source.specs.Source.{ahead, at_place};
ghost use Rattle.tree_defs.specs.Rows.{place as place_of};
ghost use Rattle.tree_defs.specs.Tree.{Text};
ghost use Rattle.tree_defs.specs.Shape.{all_leaves, length_of, Fits, RunsFit};
ghost use Rattle.tree_concat.specs.Joined.{some_leaves};
ghost use Rattle.bracket_ast.specs.Shapes.{or_nothing};
ghost use Rattle.reuse_parser.specs.Parsing.{IsAround, start_of, end_of, next_start, role_has};
ghost use Rattle.reuse_parser.specs.Reusing.{IsIn, Adds, Fills};
ghost use Rattle.reuse_parser.specs.Reading.{StandsAt, IsStop, IsNext, closer_has, IsMark};
ghost use Rattle.reuse_parser.specs.Olds.{IsSet, IsSince, IsUnseen, Went};
ghost use Rattle.reuse_parser.specs.Counting.{IsOpenAt};

use crate::old::{Old, node_at};
use crate::place::{Around, end_of, size_of, start_of};
use bracket_ast::{Node, Tree};
use mark_source::MarkSource;
use pairing_defs::{Mark, Role};
use std::alloc::{AllocError, Global};
use std::sync::ledger::Ledger;
use step_count::Steps;
use text_pos::{Length, at, length_to, less, minus};
use tree_concat::join;

/// Where a list ends: at a closer of a pair around it, which is read, or at the text's end.
#[derive(Clone, Copy)]
pub(crate) struct Stop {
    pub(crate) at: Length,
    pub(crate) closer: Option<Mark>,
}

/// What stands next in a list.
#[derive(Drop)]
pub(crate) enum Next {
    /// A node, and where it ends. More may follow.
    Node(Node, Length),
    /// A pair without closer, behind which the list ends.
    Last(Node, Stop),
    /// Nothing: the list ends here.
    End(Stop),
}

/// The tree of a list, and where it ends.
#[derive(Drop)]
pub(crate) struct Listed {
    pub(crate) tree: Tree,
    pub(crate) stop: Stop,
}

/// The nodes from a place on, up to the closer of a pair around them or the text's end.
#[cycle(reparsing)]
pub(crate) fn list_from<S: MarkSource, M: Ledger>(
    alloc: Global,
    around: Around,
    from: Length,
    old: &mut Old<'_>,
    source: &mut S,
    steps: &mut Steps<M>,
) -> Result<Listed, AllocError>
    requires around { IsAround around }
    requires place { IsIn (S.told source.old).lines around from }
    requires stands { StandsAt (S.told source.old) from }
    requires since { IsSince around.limit old.old (S.told source.old).lines }
    requires opens { IsOpenAt (S.told source.old).lines around from }
    requires ready { IsSet (S.told source.old).lines around.limit old.old from }
    ensures fills { IfOk result (λ l. Fills (S.told source.old).lines around from (or_nothing l.tree.root) l.stop.at) }
    ensures stops { IfOk result (λ l. IsStop (S.told source.old).lines around (S.told source.new) old.new l.stop) }
    ensures went { Went around.limit (S.told source.old) steps.old old.old (S.told source.new) steps.new old.new }
{
    let mut nodes = Vec::new(alloc);
    let mut place = from;
    loop {
        match next_at(alloc, around, place, old, source, steps)? {
            Next::Node(node, behind) => {
                nodes.push(node)?;
                place = behind;
            }
            Next::Last(node, stop) => {
                nodes.push(node)?;
                return tree_up_to(alloc, &nodes, stop);
            }
            Next::End(stop) => return tree_up_to(alloc, &nodes, stop),
        }
    }
}

fn tree_up_to(alloc: Global, nodes: &[Node], stop: Stop) -> Result<Listed, AllocError>
    requires { RunsFit (all_leaves nodes.now) }
    ensures leaves { IfOk result (λ l. some_leaves l.tree.root ≡ all_leaves nodes.now) }
    ensures stop { IfOk result (λ l. l.stop ≡ stop) }
{
    Ok(Listed {
        tree: join(alloc, nodes)?,
        stop,
    })
}

/// What stands at a place of a list: a node of the old tree where one can be taken, else what is made of the marks ahead.
#[cycle(reparsing)]
fn next_at<S: MarkSource, M: Ledger>(
    alloc: Global,
    around: Around,
    place: Length,
    old: &mut Old<'_>,
    source: &mut S,
    steps: &mut Steps<M>,
) -> Result<Next, AllocError>
    requires around { IsAround around }
    requires place { IsIn (S.told source.old).lines around place }
    requires stands { StandsAt (S.told source.old) place }
    requires since { IsSince around.limit old.old (S.told source.old).lines }
    requires opens { IsOpenAt (S.told source.old).lines around place }
    requires ready { IsSet (S.told source.old).lines around.limit old.old place }
    ensures next { IfOk result (λ n. IsNext (S.told source.old).lines around place (S.told source.new) old.new n) }
    ensures went { Went around.limit (S.told source.old) steps.old old.old (S.told source.new) steps.new old.new }
{
    match node_at(old, place, around) {
        Some(node) => {
            let (node, behind) = taken(node, around, place, source)?;
            Ok(Next::Node(node, behind))
        }
        None => made_at(alloc, around, place, old, source, steps),
    }
}

/// A node of the old tree, and the source behind it.
fn taken<S: MarkSource>(
    node: &Node,
    around: Around,
    place: Length,
    source: &mut S,
) -> Result<(Node, Length), AllocError>
    requires adds { Adds (S.told source.old).lines around place node.now (plus place (length_of node.now)) }
    requires fits { Fits (plus place (length_of node.now)) }
    requires stands { StandsAt (S.told source.old) place }
    ensures node { IfOk result (λ r. r.0 ≡ node.now) }
    ensures behind { IfOk result (λ r. r.1 ≡ plus place (length_of node.now)) }
    ensures source { S.told source.new ≡ at_place (place_of (plus place (length_of node.now))) (S.told source.old) }
{
    let behind = behind(place, node.length());
    source.seek(at(behind));
    Ok((node.copy()?, behind))
}

/// The place behind a piece that starts at another.
fn behind(place: Length, length: Length) -> Length
    requires { Fits (plus place length) }
    ensures { result ≡ plus place length }
{
    if length.lines == 0 {
        Length {
            lines: place.lines,
            cols: place.cols + length.cols,
        }
    } else {
        Length {
            lines: place.lines + length.lines,
            cols: length.cols,
        }
    }
}

/// A text up to the next mark, or what that mark begins.
#[cycle(reparsing)]
fn made_at<S: MarkSource, M: Ledger>(
    alloc: Global,
    around: Around,
    place: Length,
    old: &mut Old<'_>,
    source: &mut S,
    steps: &mut Steps<M>,
) -> Result<Next, AllocError>
    requires around { IsAround around }
    requires place { IsIn (S.told source.old).lines around place }
    requires stands { StandsAt (S.told source.old) place }
    requires since { IsSince around.limit old.old (S.told source.old).lines }
    requires opens { IsOpenAt (S.told source.old).lines around place }
    requires ready { IsSet (S.told source.old).lines around.limit old.old place }
    requires unseen { IsUnseen (S.told source.old).lines around.limit old.old place }
    ensures next { IfOk result (λ n. IsNext (S.told source.old).lines around place (S.told source.new) old.new n) }
    ensures went { Went around.limit (S.told source.old) steps.old old.old (S.told source.new) steps.new old.new }
{
    let next = next_mark(around.end, source);
    if less(place, next) {
        let text = text_up_to(alloc, place, next)?;
        return Ok(Next::Node(text, next));
    }
    match source.next(steps) {
        Some(mark) => begun_by(alloc, around, mark, old, source, steps),
        None => Ok(Next::End(Stop {
            at: place,
            closer: None,
        })),
    }
}

fn text_up_to(alloc: Global, from: Length, to: Length) -> Result<Node, AllocError>
    requires { IsLess from to }
    ensures { IfOk result (λ t. (len : Length) × (t ≡ Text len false) × (plus from len ≡ to)) }
{
    Node::text(alloc, minus(to, from), false)
}

/// Where the source's next mark starts, or else where the text ends.
fn next_mark<S: MarkSource>(end: Length, source: &S) -> Length
    ensures { result ≡ next_start end (ahead (S.told source.now)) }
{
    match source.peek() {
        Some(place) => length_to(place),
        None => end,
    }
}

/// What a mark begins that was read.
#[cycle(reparsing)]
fn begun_by<S: MarkSource, M: Ledger>(
    alloc: Global,
    around: Around,
    mark: Mark,
    old: &mut Old<'_>,
    source: &mut S,
    steps: &mut Steps<M>,
) -> Result<Next, AllocError>
    requires around { IsAround around }
    requires mark { IsMark (S.told source.old).lines (start_of mark) mark }
    requires place { IsIn (S.told source.old).lines around (start_of mark) }
    requires stands { StandsAt (S.told source.old) (end_of mark) }
    requires since { IsSince around.limit old.old (S.told source.old).lines }
    requires opens { IsOpenAt (S.told source.old).lines around (start_of mark) }
    requires ready { IsSet (S.told source.old).lines around.limit old.old (end_of mark) }
    ensures next { IfOk result (λ n. IsNext (S.told source.old).lines around (start_of mark) (S.told source.new) old.new n) }
    ensures went { Went around.limit (S.told source.old) steps.old old.old (S.told source.new) steps.new old.new }
{
    match mark.role {
        Role::Opener(kind) if around.level < around.limit => {
            pair_of(alloc, around, mark, kind, old, source, steps)
        }
        Role::Opener(_) => {
            let text = Node::text(alloc, size_of(mark), true)?;
            Ok(Next::Node(text, end_of(mark)))
        }
        Role::Closer(kinds) if kinds.meets(around.above) => Ok(Next::End(Stop {
            at: start_of(mark),
            closer: Some(mark),
        })),
        Role::Closer(kinds) => {
            let node = Node::unexpected(alloc, size_of(mark), kinds)?;
            Ok(Next::Node(node, end_of(mark)))
        }
    }
}

/// The pair of an opener. A closer of a pair around it ends it too.
#[cycle(reparsing)]
fn pair_of<S: MarkSource, M: Ledger>(
    alloc: Global,
    around: Around,
    mark: Mark,
    kind: u32,
    old: &mut Old<'_>,
    source: &mut S,
    steps: &mut Steps<M>,
) -> Result<Next, AllocError>
    requires around { IsAround around }
    requires room { around.level < around.limit }
    requires opener { mark.role ≡ role.Opener kind }
    requires mark { IsMark (S.told source.old).lines (start_of mark) mark }
    requires place { IsIn (S.told source.old).lines around (start_of mark) }
    requires stands { StandsAt (S.told source.old) (end_of mark) }
    requires since { IsSince around.limit old.old (S.told source.old).lines }
    requires opens { IsOpenAt (S.told source.old).lines around (start_of mark) }
    requires ready { IsSet (S.told source.old).lines around.limit old.old (end_of mark) }
    ensures next { IfOk result (λ n. IsNext (S.told source.old).lines around (start_of mark) (S.told source.new) old.new n) }
    ensures went { Went around.limit (S.told source.old) steps.old old.old (S.told source.new) steps.new old.new }
{
    let opener = Node::bracket(alloc, size_of(mark), kind)?;
    let inside = list_from(alloc, around.within(kind), end_of(mark), old, source, steps)?;
    match closing(inside.stop, kind) {
        Some(last) => {
            let closer = Node::bracket(alloc, size_of(last), kind)?;
            let node = Node::pair(alloc, &opener, inside.tree.root.as_ref(), Some(&closer))?;
            Ok(Next::Node(node, end_of(last)))
        }
        None => {
            let node = Node::pair(alloc, &opener, inside.tree.root.as_ref(), None)?;
            Ok(Next::Last(node, inside.stop))
        }
    }
}

/// The closer at which a list ends, where it closes this kind.
fn closing(stop: Stop, kind: u32) -> Option<Mark>
    ensures some { IfSome result (λ m. (stop.closer ≡ Some m) × (role_has m.role kind ≡ true)) }
    ensures none { result ≡ None → closer_has stop.closer kind ≡ false }
{
    let mark = stop.closer?;
    match mark.role {
        Role::Closer(kinds) if kinds.has(kind) => Some(mark),
        _ => None,
    }
}
