//! Joins nodes of one height to one node, level by level.

ghost use Rattle.std.specs.Prelude.{◌≡◌, ◌+◌, ◌∷◌, ◌++◌, ◌<◌, ◌≤◌, IfOk, length};
ghost use Rattle.tree_defs.specs.Shape.{height, leaves_of, all_leaves, RunsFit};
ghost use Rattle.bracket_ast.specs.Shapes.{nows};
ghost use Rattle.tree_concat.specs.Joined.{some_leaves, SomeHigh, AllHigh, first_height};

use crate::lists::{three, two};
use bracket_ast::Node;
use std::alloc::{AllocError, Global};

/// One node of nodes of one height.
pub(crate) fn raise(alloc: Global, nodes: &[Node]) -> Result<Node, AllocError>
    requires some { 0 < length nodes.now }
    requires high { AllHigh (first_height nodes.now) nodes.now }
    requires fit { RunsFit (all_leaves nodes.now) }
    ensures { IfOk result (λ t. leaves_of t ≡ all_leaves nodes.now) }
{
    if let [only] = nodes {
        return only.copy();
    }
    let lists = lists_of(alloc, nodes)?;
    raise(alloc, &lists)
}

/// Lists of two nodes each, and of three at the end where their number is odd.
fn lists_of(alloc: Global, nodes: &[Node]) -> Result<Vec<Node>, AllocError>
    requires some { 2 ≤ length nodes.now }
    requires high { AllHigh (first_height nodes.now) nodes.now }
    requires fit { RunsFit (all_leaves nodes.now) }
    ensures leaves { IfOk result (λ v. all_leaves v.items ≡ all_leaves nodes.now) }
    ensures high { IfOk result (λ v. AllHigh (first_height nodes.now + 1) v.items) }
    ensures some { IfOk result (λ v. 0 < length v.items) }
    ensures fewer { IfOk result (λ v. length v.items < length nodes.now) }
{
    let mut lists = Vec::new(alloc);
    let mut rest = nodes;
    while rest.len() > 3 {
        let (a, b, more) = first_two(rest);
        lists.push(two(alloc, a, b)?)?;
        rest = more;
    }
    lists.push(last_list(alloc, rest)?)?;
    Ok(lists)
}

/// A list of two or three nodes.
fn last_list(alloc: Global, nodes: &[Node]) -> Result<Node, AllocError>
    requires some { 2 ≤ length nodes.now }
    requires few { length nodes.now ≤ 3 }
    requires high { AllHigh (first_height nodes.now) nodes.now }
    requires fit { RunsFit (all_leaves nodes.now) }
    ensures leaves { IfOk result (λ t. leaves_of t ≡ all_leaves nodes.now) }
    ensures high { IfOk result (λ t. height t ≡ first_height nodes.now + 1) }
{
    match nodes {
        [a, b] => two(alloc, a, b),
        [a, b, c] => three(alloc, a, b, c),
        _ => unreachable!(),
    }
}

/// The first two nodes, and those behind them.
fn first_two(nodes: &[Node]) -> (&Node, &Node, &[Node])
    requires { 2 ≤ length nodes.now }
    ensures { nodes.entry.now ≡ result.0.now ∷ (result.1.now ∷ result.2.now) }
{
    match nodes {
        [a, b, more @ ..] => (a, b, more),
        _ => unreachable!(),
    }
}
