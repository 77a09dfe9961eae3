//! Nodes at an offset, by a walk over all nodes.
use bracket_ast::{Node, Sort};
use node_reader::Ask;
use text_pos::{Length, less};

/// The outermost node that passes and starts at an offset, of a node that starts at a place and those in it, so many
/// levels of them.
pub(crate) fn found_by_walk(
    node: &Node,
    at: Length,
    offset: Length,
    ask: Ask,
    levels: u32,
) -> Option<&Node> {
    if levels == 0 {
        return None;
    }
    if at == offset && passes(node, ask) {
        return Some(node);
    }
    if node.sort() == Sort::Pair {
        let begin = behind(at, node.opener().length());
        return found_by_walk(node.inside()?, begin, offset, ask, levels - 1);
    }
    let mut from = at;
    for child in node.children() {
        let found = found_by_walk(child, from, offset, ask, levels - 1);
        if found.is_some() {
            return found;
        }
        from = behind(from, child.length());
    }
    None
}

fn passes(node: &Node, ask: Ask) -> bool {
    let fits = match ask.room {
        Some(room) => less(node.length(), room),
        None => true,
    };
    fits && node.can_be_reused(ask.above, ask.level, ask.limit)
}

fn behind(at: Length, len: Length) -> Length {
    if len.lines == 0 {
        Length {
            lines: at.lines,
            cols: at.cols.saturating_add(len.cols),
        }
    } else {
        Length {
            lines: at.lines.saturating_add(len.lines),
            cols: len.cols,
        }
    }
}
