//! Parts of nodes, and how far into them an offset lies.
ghost use Rattle.std.specs.Prelude.{◌≡◌, ◌≤◌};
ghost use Rattle.text_pos.specs.Lengths.{plus, IsLess};
ghost use Rattle.tree_defs.specs.Shape.{length_of, Fits};
ghost use Rattle.bracket_ast.specs.Shapes.{nows};
ghost use Rattle.node_reader.specs.Parts.{front, IsPart, IsPartAt};

use bracket_ast::{Node, Sort};
use text_pos::{Length, less, minus};

/// The start of a node.
pub(crate) const START: Length = Length { lines: 0, cols: 0 };

/// A part of a node, its number there, and how far into it an offset lies.
#[derive(Clone, Copy)]
pub(crate) struct PartAt<'a> {
    pub(crate) node: &'a Node,
    pub(crate) number: usize,
    pub(crate) rest: Length,
}

/// The part of a node in which an offset lies, as far into the node. None where it has no parts.
pub(crate) fn part_at(node: &Node, offset: Length) -> Option<PartAt<'_>>
    requires { IsLess offset (length_of node.now) }
    ensures { IsPartAt node.entry.now offset result }
{
    let _length = node.length();
    let mut rest = offset;
    for number in 0..3 {
        if let Some(part) = part(node, number) {
            let length = part.length();
            if less(rest, length) {
                return Some(PartAt {
                    node: part,
                    number,
                    rest,
                });
            }
            rest = minus(rest, length);
        }
    }
    None
}

/// How far into a node an offset lies that lies so far into a part of it.
pub(crate) fn from_part(node: &Node, number: usize, rest: Length) -> Length
    requires { Fits (plus (front number node.now) rest) }
    ensures { result ≡ plus (front number node.now) rest }
{
    let mut offset = rest;
    let mut before = number;
    while before > 0 {
        before -= 1;
        if let Some(part) = part(node, before) {
            offset = behind(part.length(), offset);
        }
    }
    offset
}

/// A part of a node by its number: opener, inside and closer of a pair, or the children of a list.
fn part(node: &Node, number: usize) -> Option<&Node>
    ensures { IsPart node.entry.now number (nows result) }
{
    match node.sort() {
        Sort::Pair => match number {
            0 => Some(node.opener()),
            1 => node.inside(),
            2 => node.closer(),
            _ => None,
        },
        Sort::List => node.children().get(number),
        _ => None,
    }
}

/// The offset behind a piece that starts at another.
pub(crate) fn behind(at: Length, len: Length) -> Length
    requires { Fits (plus at len) }
    ensures { result ≡ plus at len }
{
    if len.lines == 0 {
        Length {
            lines: at.lines,
            cols: at.cols + len.cols,
        }
    } else {
        Length {
            lines: at.lines + len.lines,
            cols: len.cols,
        }
    }
}
