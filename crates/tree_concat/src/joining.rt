//! Joins nodes to one tree of all of them, in order.

ghost use Rattle.std.specs.Prelude.{◌≡◌, ◌++◌, ◌<◌, IfOk, length};
ghost use Rattle.tree_defs.specs.Shape.{leaves_of, all_leaves, RunsFit, IsEven};
ghost use Rattle.bracket_ast.specs.Shapes.{or_nothing};
ghost use Rattle.tree_concat.specs.Joined.{some_leaves, AllHigh, first_height};

use crate::grow::{append, prepend, whole};
use crate::level::raise;
use bracket_ast::{Node, Tree};
use std::alloc::{AllocError, Global};

/// One tree of all items, in order, with the lists among them opened. There is no root where there are no items, and an
/// item that is alone is the root. Neighbours of one height are joined first, level by level, so that the time goes by
/// the number of items and by the differences of their heights, and not by what lies in them.
pub fn join(alloc: Global, items: &[Node]) -> Result<Tree, AllocError>
    requires { RunsFit (all_leaves items.now) }
    ensures { IfOk result (λ t. some_leaves t.root ≡ all_leaves items.now) }
{
    let mut root = None;
    let mut rest = items;
    while !rest.is_empty() {
        let (run, more) = first_run(rest);
        let next = raise(alloc, run)?;
        root = Some(behind(alloc, root, next)?);
        rest = more;
    }
    Ok(Tree { root })
}

/// The longest run of nodes at the front that are as high as the first, and the nodes behind it.
fn first_run(nodes: &[Node]) -> (&[Node], &[Node])
    requires { 0 < length nodes.now }
    ensures parts { nodes.entry.now ≡ result.0.now ++ result.1.now }
    ensures some { 0 < length result.0.now }
    ensures high { AllHigh (first_height result.0.now) result.0.now }
{
    let mut n = 1;
    while n < nodes.len() && nodes[n].height() == nodes[0].height() {
        n += 1;
    }
    (&nodes[..n], &nodes[n..])
}

fn behind(alloc: Global, root: Option<Node>, next: Node) -> Result<Node, AllocError>
    requires { RunsFit (some_leaves root ++ leaves_of next) }
    ensures { IfOk result (λ t. leaves_of t ≡ some_leaves root ++ leaves_of next) }
{
    match root {
        None => Ok(next),
        Some(root) => concat(alloc, &root, &next),
    }
}

fn concat(alloc: Global, a: &Node, b: &Node) -> Result<Node, AllocError>
    requires { RunsFit (leaves_of a.now ++ leaves_of b.now) }
    ensures { IfOk result (λ t. leaves_of t ≡ leaves_of a.now ++ leaves_of b.now) }
{
    if a.height() >= b.height() {
        whole(alloc, append(alloc, a, b)?)
    } else {
        whole(alloc, prepend(alloc, a, b)?)
    }
}
