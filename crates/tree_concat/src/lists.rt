//! Makes lists of two or three nodes, and tells the children of a list.

ghost use Rattle.std.specs.Prelude.{◌≡◌, ◌+◌, ◌++◌, ◌<◌, IfOk};
ghost use Rattle.tree_defs.specs.Shape.{height, leaves_of, RunsFit};
ghost use Rattle.bracket_ast.specs.Shapes.{Sound};
ghost use Rattle.tree_concat.specs.Children.{AreChildren};

use bracket_ast::Node;
use std::alloc::{AllocError, Global};

/// A list of two nodes.
pub(crate) fn two(alloc: Global, a: &Node, b: &Node) -> Result<Node, AllocError>
    requires high { height b.now ≡ height a.now }
    requires fit { RunsFit (leaves_of a.now ++ leaves_of b.now) }
    ensures leaves { IfOk result (λ t. leaves_of t ≡ leaves_of a.now ++ leaves_of b.now) }
    ensures high { IfOk result (λ t. height t ≡ height a.now + 1) }
{
    Node::list(alloc, a, b, None)
}

/// A list of three nodes.
pub(crate) fn three(alloc: Global, a: &Node, b: &Node, c: &Node) -> Result<Node, AllocError>
    requires b_high { height b.now ≡ height a.now }
    requires c_high { height c.now ≡ height a.now }
    requires fit { RunsFit (leaves_of a.now ++ (leaves_of b.now ++ leaves_of c.now)) }
    ensures leaves { IfOk result (λ t. leaves_of t ≡ leaves_of a.now ++ (leaves_of b.now ++ leaves_of c.now)) }
    ensures high { IfOk result (λ t. height t ≡ height a.now + 1) }
{
    Node::list(alloc, a, b, Some(c))
}

/// The children of a list.
pub(crate) enum Children<'a> {
    Two(&'a Node, &'a Node),
    Three(&'a Node, &'a Node, &'a Node),
}

/// The children of a node that is a list.
pub(crate) fn apart(list: &Node) -> Children<'_>
    requires { 0 < height list.now }
    ensures parts { AreChildren result list.entry.now }
    ensures sound { Sound list.entry.now }
{
    let _height = list.height();
    match list.children() {
        [a, b] => Children::Two(a, b),
        [a, b, c] => Children::Three(a, b, c),
        _ => unreachable!(),
    }
}
