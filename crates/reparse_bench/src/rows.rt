//! The rows of a tree, as their number and a sum over them.
use bracket_ast::{Node, Sort, Tree};
use std::alloc::{AllocError, Global};
use text_pos::Length;

/// What is left to be walked: a node with so many pairs around it, or the closer of a pair.
#[derive(Drop)]
enum Task<'a> {
    Walk(&'a Node, u64),
    Close(&'a Node, u64),
}

/// How many rows there are, and a sum over all of each.
#[derive(Clone, Copy, PartialEq, Eq)]
pub(crate) struct Rows {
    pub(crate) count: u64,
    pub(crate) sum: u64,
}

fn behind(a: Length, b: Length) -> Length {
    if b.lines == 0 {
        Length {
            lines: a.lines,
            cols: a.cols.saturating_add(b.cols),
        }
    } else {
        Length {
            lines: a.lines.saturating_add(b.lines),
            cols: b.cols,
        }
    }
}

impl Rows {
    /// One row more: what it is, where it starts, how long it is, and its level.
    fn add(&mut self, sort: u64, at: Length, length: Length, level: u64) {
        self.count = self.count.saturating_add(1);
        for number in [
            sort,
            u64::from(at.lines),
            u64::from(at.cols),
            u64::from(length.cols),
            level,
        ] {
            self.sum = (self.sum ^ number).wrapping_mul(0x100_0000_01b3);
        }
    }
}

/// The rows of a tree, read off its nodes from left to right.
pub(crate) fn rows_of(alloc: Global, tree: &Tree) -> Result<Rows, AllocError> {
    let mut rows = Rows {
        count: 0,
        sum: 0xcbf2_9ce4_8422_2325,
    };
    let mut tasks = Vec::new(alloc);
    if let Some(root) = &tree.root {
        tasks.push(Task::Walk(root, 0))?;
    }
    let mut at = Length { lines: 0, cols: 0 };
    for _ in 0..u64::MAX {
        let Some(task) = tasks.pop() else {
            break;
        };
        match task {
            Task::Close(closer, level) => {
                rows.add(1, at, closer.length(), level);
                at = behind(at, closer.length());
            }
            Task::Walk(node, level) => match node.sort() {
                Sort::List => {
                    for child in node.children().iter().rev() {
                        tasks.push(Task::Walk(child, level))?;
                    }
                }
                Sort::Pair => {
                    let kind = u64::from(node.opener().kind()).saturating_add(3);
                    rows.add(kind, at, node.opener().length(), level);
                    at = behind(at, node.opener().length());
                    if let Some(closer) = node.closer() {
                        tasks.push(Task::Close(closer, level))?;
                    }
                    if let Some(inside) = node.inside() {
                        tasks.push(Task::Walk(inside, level.saturating_add(1)))?;
                    }
                }
                Sort::Unexpected => {
                    rows.add(2, at, node.length(), level);
                    at = behind(at, node.length());
                }
                Sort::Text | Sort::Bracket => at = behind(at, node.length()),
            },
        }
    }
    Ok(rows)
}
