//! The nodes of a tree.
use bracket_ast::{Node, Sort, Tree};
use std::alloc::{AllocError, Global};

/// How many nodes a tree has.
pub(crate) fn count_nodes(alloc: Global, tree: &Tree) -> Result<u64, AllocError> {
    let mut count = 0u64;
    let mut left = Vec::new(alloc);
    if let Some(root) = &tree.root {
        left.push(root)?;
    }
    for _ in 0..u64::MAX {
        let Some(node) = left.pop() else {
            break;
        };
        count = count.saturating_add(1);
        push_parts(&mut left, node)?;
        if node.sort() == Sort::Pair {
            count = count.saturating_add(if node.closer().is_some() { 2 } else { 1 });
        }
    }
    Ok(count)
}

fn push_parts<'a>(left: &mut Vec<&'a Node>, node: &'a Node) -> Result<(), AllocError> {
    for child in node.children() {
        left.push(child)?;
    }
    if node.sort() == Sort::Pair {
        if let Some(inside) = node.inside() {
            left.push(inside)?;
        }
    }
    Ok(())
}
