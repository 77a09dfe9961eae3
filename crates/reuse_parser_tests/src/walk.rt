use bracket_ast::{Node, Sort, Tree};
use std::alloc::{AllocError, Global};
use text_pos::Length;

/// What is left to be shown of a tree: a node with so many pairs around it, or the closer of a pair.
#[derive(Drop)]
enum Task<'a> {
    Walk(&'a Node, usize),
    Close(&'a Node, usize, usize),
}

/// The place behind a piece.
fn behind(a: Length, b: Length) -> Length {
    if b.lines == 0 {
        Length {
            lines: a.lines,
            cols: a.cols.saturating_add(b.cols),
        }
    } else {
        Length {
            lines: a.lines.saturating_add(b.lines),
            cols: b.cols,
        }
    }
}

/// A row: line, columns, level, kind level and colour, and then the place where its inside ends, or its own.
pub(crate) fn row(
    alloc: Global,
    text: &mut String,
    at: Length,
    to: u32,
    level: usize,
    own: usize,
    colour: usize,
    inner: Length,
) -> Result<(), AllocError> {
    let shown = format!(in alloc;
        "[{},{},{},{level},{own},{colour}]{}:{} ",
        at.lines, at.cols, to, inner.lines, inner.cols
    )?;
    text.push_str(shown.as_str())
}

fn length_of(node: Option<&Node>) -> Length {
    match node {
        Some(node) => node.length(),
        None => Length { lines: 0, cols: 0 },
    }
}

/// The rows of a tree, read off its nodes from left to right.
pub(crate) fn rows_of(alloc: Global, tree: &Tree) -> Result<String, AllocError> {
    let mut text = String::new(alloc);
    let mut tasks = Vec::new(alloc);
    if let Some(root) = &tree.root {
        tasks.push(Task::Walk(root, 0))?;
    }
    let mut kinds = Vec::new(alloc);
    let mut at = Length { lines: 0, cols: 0 };
    for _ in 0..1_000_000 {
        let Some(task) = tasks.pop() else {
            break;
        };
        match task {
            Task::Close(closer, level, own) => {
                let end = behind(at, closer.length());
                row(alloc, &mut text, at, end.cols, level, own, level % 6, at)?;
                at = end;
            }
            Task::Walk(node, level) => match node.sort() {
                Sort::List => {
                    for child in node.children().iter().rev() {
                        tasks.push(Task::Walk(child, level))?;
                    }
                }
                Sort::Pair => {
                    kinds.truncate(level);
                    let kind = node.opener().kind();
                    let own = kinds.iter().filter(|other| **other == kind).count();
                    kinds.push(kind)?;
                    let end = behind(at, node.opener().length());
                    let inner = behind(end, length_of(node.inside()));
                    let colour = if node.closer().is_some() {
                        level % 6
                    } else {
                        6
                    };
                    row(alloc, &mut text, at, end.cols, level, own, colour, inner)?;
                    at = end;
                    if let Some(closer) = node.closer() {
                        tasks.push(Task::Close(closer, level, own))?;
                    }
                    if let Some(inside) = node.inside() {
                        tasks.push(Task::Walk(inside, level.saturating_add(1)))?;
                    }
                }
                Sort::Unexpected => {
                    let end = behind(at, node.length());
                    row(alloc, &mut text, at, end.cols, level, 0, 6, at)?;
                    at = end;
                }
                Sort::Text | Sort::Bracket => at = behind(at, node.length()),
            },
        }
    }
    Ok(text)
}
