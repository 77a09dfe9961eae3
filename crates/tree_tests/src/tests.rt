//! Shows what lists and pairs keep of their nodes, how high joined trees are, and that large ones are dropped.

ghost use Rattle.std.specs.Prelude.{◌≡◌, ◌+◌, ◌<◌, ◌^◌, IfOk, replicate};
ghost use Rattle.tree_defs.specs.Shape.{all_leaves, leaves_of, RunsFit};
ghost use Rattle.tree_concat.specs.Joined.{some_leaves};
ghost use Rattle.tree_tests.specs.Columns.{one_column, letter};

use bracket_ast::{Node, Sort, Tree};
use std::alloc::{AllocError, Global};
use std::test::Fail;
use text_pos::{Kinds, Length};
use tree_concat::join;

fn one() -> Length
    ensures { result ≡ one_column }
{
    Length { lines: 0, cols: 1 }
}

/// Texts of one column each.
fn letters(alloc: Global, n: u32) -> Result<Vec<Node>, AllocError>
    ensures { IfOk result (λ v. v.items ≡ replicate n letter) }
{
    let mut nodes = Vec::new(alloc);
    for _ in 0..n {
        nodes.push(Node::text(alloc, one(), false)?)?;
    }
    Ok(nodes)
}

/// A tree of texts of one column each.
fn tree_of(alloc: Global, n: u32) -> Result<Tree, AllocError>
    ensures { IfOk result (λ t. some_leaves t.root ≡ replicate n letter) }
{
    join(alloc, &letters(alloc, n)?)
}

#[test]
fn a_list_keeps_what_its_nodes_keep(rt: HostRuntime) -> Result<(), Fail> {
    let lone = Node::unexpected(rt.alloc(), one(), Kinds::one(1))?;
    let list = Node::list(rt.alloc(), &lone, &lone, None)?;
    assert!(rt; list.sort() == Sort::List);
    assert_eq!(rt; list.children().len(), 2);
    assert_eq!(rt; list.height(), 1);
    assert_eq!(rt; list.length(), Length { lines: 0, cols: 2 });
    assert_eq!(rt; list.depth(), 0);
    assert!(rt; !list.is_bare());
    assert!(rt; list.missing().has(1) && !list.missing().has(2));
    assert!(rt; list.can_be_reused(Kinds::one(2), 0, 0));
    assert!(rt; !list.can_be_reused(Kinds::one(1), 0, 0));
    Ok(())
}

#[test]
fn a_pair_keeps_what_lies_in_it(rt: HostRuntime) -> Result<(), Fail> {
    let bracket = Node::bracket(rt.alloc(), one(), 2)?;
    let text = Node::text(rt.alloc(), Length { lines: 1, cols: 4 }, true)?;
    let open = Node::pair(rt.alloc(), &bracket, Some(&text), None)?;
    let closed = Node::pair(rt.alloc(), &bracket, Some(&text), Some(&bracket))?;
    assert_eq!(rt; closed.length(), Length { lines: 1, cols: 5 });
    assert_eq!(rt; closed.depth(), 1);
    assert_eq!(rt; closed.opener().kind(), 2);
    assert!(rt; closed.is_cut() && text.is_bare() && !closed.is_bare());
    assert!(rt; closed.inside().is_some() && closed.closer().is_some() && open.closer().is_none());
    let empty = Node::pair(rt.alloc(), &bracket, None, Some(&bracket))?;
    assert!(rt; empty.copy()?.can_be_reused(Kinds::one(2), 4, 5));
    assert!(rt; !empty.can_be_reused(Kinds::one(2), 5, 5));
    assert!(rt; !open.can_be_reused(Kinds::empty(), 0, 300));
    Ok(())
}

#[test]
fn a_thousand_nodes_are_nine_lists_high(rt: HostRuntime) -> Result<(), Fail> {
    let tree = tree_of(rt.alloc(), 1000)?;
    let root = tree.root.ok_or("no root")?;
    assert_eq!(rt;
        root.length(),
        Length {
            lines: 0,
            cols: 1000
        }
    );
    assert_eq!(rt; root.height(), 9);
    Ok(())
}

#[test]
fn one_item_is_the_root_and_no_item_is_none(rt: HostRuntime) -> Result<(), Fail> {
    let root = tree_of(rt.alloc(), 1)?.root.ok_or("no root")?;
    assert!(rt; root.sort() == Sort::Text);
    assert!(rt; tree_of(rt.alloc(), 0)?.root.is_none());
    Ok(())
}

#[test]
fn many_nodes_are_dropped_list_by_list(rt: HostRuntime) -> Result<(), Fail> {
    let root = tree_of(rt.alloc(), 262_144)?.root.ok_or("no root")?;
    assert_eq!(rt; root.height(), 18);
    Ok(())
}
