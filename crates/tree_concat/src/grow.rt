//! Puts together two nodes of a tree, one of which may be higher, as one or two nodes of one height.

ghost use Rattle.std.specs.Prelude.{◌≡◌, ◌+◌, ◌++◌, ◌≤◌, IfOk};
ghost use Rattle.tree_defs.specs.Shape.{height, leaves_of, RunsFit};
ghost use Rattle.tree_concat.specs.Joined.{some_leaves, SomeHigh};

use crate::lists::{Children, apart, three, two};
use bracket_ast::Node;
use std::alloc::{AllocError, Global};

/// One or two nodes of one height.
#[derive(Drop)]
pub(crate) struct Grown {
    pub(crate) first: Node,
    pub(crate) second: Option<Node>,
}

/// A node, and behind it another that is no higher: one or two nodes as high as the first.
pub(crate) fn append(alloc: Global, a: &Node, b: &Node) -> Result<Grown, AllocError>
    requires high { height b.now ≤ height a.now }
    requires fit { RunsFit (leaves_of a.now ++ leaves_of b.now) }
    ensures leaves { IfOk result (λ g. leaves_of g.first ++ some_leaves g.second ≡ leaves_of a.now ++ leaves_of b.now) }
    ensures first { IfOk result (λ g. height g.first ≡ height a.now) }
    ensures second { IfOk result (λ g. SomeHigh (height a.now) g.second) }
{
    if a.height() == b.height() {
        return both(a, b);
    }
    match apart(a) {
        Children::Two(x, y) => behind_one(alloc, x, append(alloc, y, b)?),
        Children::Three(x, y, z) => behind_two(alloc, x, y, append(alloc, z, b)?),
    }
}

/// A node, and before it another that is lower: one or two nodes as high as the second.
pub(crate) fn prepend(alloc: Global, a: &Node, b: &Node) -> Result<Grown, AllocError>
    requires high { height a.now ≤ height b.now }
    requires fit { RunsFit (leaves_of a.now ++ leaves_of b.now) }
    ensures leaves { IfOk result (λ g. leaves_of g.first ++ some_leaves g.second ≡ leaves_of a.now ++ leaves_of b.now) }
    ensures first { IfOk result (λ g. height g.first ≡ height b.now) }
    ensures second { IfOk result (λ g. SomeHigh (height b.now) g.second) }
{
    if a.height() == b.height() {
        return both(a, b);
    }
    match apart(b) {
        Children::Two(x, y) => before_one(alloc, prepend(alloc, a, x)?, y),
        Children::Three(x, y, z) => before_two(alloc, prepend(alloc, a, x)?, y, z),
    }
}

/// One node of one or two of the same height.
pub(crate) fn whole(alloc: Global, grown: Grown) -> Result<Node, AllocError>
    requires high { SomeHigh (height grown.first) grown.second }
    requires fit { RunsFit (leaves_of grown.first ++ some_leaves grown.second) }
    ensures { IfOk result (λ t. leaves_of t ≡ leaves_of grown.first ++ some_leaves grown.second) }
{
    let Grown { first, second } = grown;
    match second {
        None => Ok(first),
        Some(second) => two(alloc, &first, &second),
    }
}

fn both(a: &Node, b: &Node) -> Result<Grown, AllocError>
    requires { height a.now ≡ height b.now }
    ensures first { IfOk result (λ g. g.first ≡ a.now) }
    ensures leaves { IfOk result (λ g. leaves_of g.first ++ some_leaves g.second ≡ leaves_of a.now ++ leaves_of b.now) }
    ensures second { IfOk result (λ g. SomeHigh (height a.now) g.second) }
{
    Ok(Grown {
        first: a.copy()?,
        second: Some(b.copy()?),
    })
}

/// A list of a node and of one or two nodes behind it.
fn behind_one(alloc: Global, x: &Node, grown: Grown) -> Result<Grown, AllocError>
    requires first_high { height grown.first ≡ height x.now }
    requires second_high { SomeHigh (height x.now) grown.second }
    requires fit { RunsFit (leaves_of x.now ++ (leaves_of grown.first ++ some_leaves grown.second)) }
    ensures leaves { IfOk result (λ g. leaves_of g.first ++ some_leaves g.second ≡ leaves_of x.now ++ (leaves_of grown.first ++ some_leaves grown.second)) }
    ensures first { IfOk result (λ g. height g.first ≡ height x.now + 1) }
    ensures second { IfOk result (λ g. SomeHigh (height x.now + 1) g.second) }
{
    let Grown { first, second } = grown;
    let list = match second {
        None => two(alloc, x, &first)?,
        Some(second) => three(alloc, x, &first, &second)?,
    };
    Ok(Grown {
        first: list,
        second: None,
    })
}

/// Lists of two nodes and of one or two nodes behind them.
fn behind_two(alloc: Global, x: &Node, y: &Node, grown: Grown) -> Result<Grown, AllocError>
    requires y_high { height y.now ≡ height x.now }
    requires first_high { height grown.first ≡ height x.now }
    requires second_high { SomeHigh (height x.now) grown.second }
    requires fit { RunsFit (leaves_of x.now ++ (leaves_of y.now ++ (leaves_of grown.first ++ some_leaves grown.second))) }
    ensures leaves { IfOk result (λ g. leaves_of g.first ++ some_leaves g.second ≡ leaves_of x.now ++ (leaves_of y.now ++ (leaves_of grown.first ++ some_leaves grown.second))) }
    ensures first { IfOk result (λ g. height g.first ≡ height x.now + 1) }
    ensures second { IfOk result (λ g. SomeHigh (height x.now + 1) g.second) }
{
    let Grown { first, second } = grown;
    match second {
        None => Ok(Grown {
            first: three(alloc, x, y, &first)?,
            second: None,
        }),
        Some(second) => Ok(Grown {
            first: two(alloc, x, y)?,
            second: Some(two(alloc, &first, &second)?),
        }),
    }
}

/// A list of a node and of one or two nodes before it.
fn before_one(alloc: Global, grown: Grown, x: &Node) -> Result<Grown, AllocError>
    requires first_high { height grown.first ≡ height x.now }
    requires second_high { SomeHigh (height x.now) grown.second }
    requires fit { RunsFit (leaves_of grown.first ++ (some_leaves grown.second ++ leaves_of x.now)) }
    ensures leaves { IfOk result (λ g. leaves_of g.first ++ some_leaves g.second ≡ leaves_of grown.first ++ (some_leaves grown.second ++ leaves_of x.now)) }
    ensures first { IfOk result (λ g. height g.first ≡ height x.now + 1) }
    ensures second { IfOk result (λ g. SomeHigh (height x.now + 1) g.second) }
{
    let Grown { first, second } = grown;
    let list = match second {
        None => two(alloc, &first, x)?,
        Some(second) => three(alloc, &first, &second, x)?,
    };
    Ok(Grown {
        first: list,
        second: None,
    })
}

/// Lists of two nodes and of one or two nodes before them.
fn before_two(alloc: Global, grown: Grown, x: &Node, y: &Node) -> Result<Grown, AllocError>
    requires y_high { height y.now ≡ height x.now }
    requires first_high { height grown.first ≡ height x.now }
    requires second_high { SomeHigh (height x.now) grown.second }
    requires fit { RunsFit (leaves_of grown.first ++ (some_leaves grown.second ++ (leaves_of x.now ++ leaves_of y.now))) }
    ensures leaves { IfOk result (λ g. leaves_of g.first ++ some_leaves g.second ≡ leaves_of grown.first ++ (some_leaves grown.second ++ (leaves_of x.now ++ leaves_of y.now))) }
    ensures first { IfOk result (λ g. height g.first ≡ height x.now + 1) }
    ensures second { IfOk result (λ g. SomeHigh (height x.now + 1) g.second) }
{
    let Grown { first, second } = grown;
    match second {
        None => Ok(Grown {
            first: three(alloc, &first, x, y)?,
            second: None,
        }),
        Some(second) => Ok(Grown {
            first: two(alloc, &first, &second)?,
            second: Some(two(alloc, x, y)?),
        }),
    }
}
