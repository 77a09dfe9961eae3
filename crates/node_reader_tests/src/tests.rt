//! Tests that show that a reader finds the longest node at each offset, as a walk of the tree does.

ghost use Rattle.std.specs.Prelude.{◌≡◌, ◌<◌};
ghost use Rattle.text_pos.specs.Lengths.{IsLess};

use crate::texts::{lines_of, text_by, tree_of};
use crate::walk::found_by_walk;
use bracket_ast::{Node, Tree};
use line_text::Text;
use node_reader::{Ask, Reader};
use std::alloc::{AllocError, Global};
use std::test::Fail;
use text_pos::{Kinds, Length};

const START: Length = Length { lines: 0, cols: 0 };

/// No kinds are open, and there is room for nodes of at most so many columns of one line.
fn in_columns(most: u32) -> Ask
    requires { most < 1000 }
{
    Ask {
        above: Kinds::empty(),
        level: 0,
        limit: 300,
        room: Some(columns(most + 1)),
    }
}

fn columns(cols: u32) -> Length
    ensures { result ≡ record { lines = 0; cols = cols } }
{
    Length { lines: 0, cols }
}

fn random(state: u32) -> u32 {
    state.wrapping_mul(1_664_525).wrapping_add(1_013_904_223)
}

/// A question that a number tells.
fn ask_by(state: u32) -> Ask {
    let above = match (state >> 8) % 4 {
        0 => Kinds::one(0),
        1 => Kinds::one(1),
        2 => Kinds::one(1).with(Kinds::one(2)),
        _ => Kinds::empty(),
    };
    let room = match (state >> 12) % 4 {
        0 => Some(columns((state >> 16) % 8)),
        1 => Some(Length {
            lines: (state >> 16) % 3,
            cols: (state >> 20) % 5,
        }),
        _ => None,
    };
    Ask {
        above,
        level: (state >> 24) % 3,
        limit: (state >> 26) % 12,
        room,
    }
}

/// The same offset, one a column further, or the start of the next line.
fn later(at: Length, state: u32) -> Length
    ensures { ¬ IsLess result at }
{
    match (state >> 16) % 16 {
        0 | 1 | 2 => at,
        3 => match at.lines.checked_add(1) {
            Some(lines) => Length { lines, cols: 0 },
            None => at,
        },
        _ => match at.cols.checked_add(1) {
            Some(cols) => Length {
                lines: at.lines,
                cols,
            },
            None => at,
        },
    }
}

/// Whether two nodes that start at one offset are one node: if they are equally long.
fn is_same(a: Option<&Node>, b: Option<&Node>) -> bool {
    match (a, b) {
        (Some(a), Some(b)) => a.length() == b.length() && a.sort() == b.sort(),
        (None, None) => true,
        _ => false,
    }
}

/// Whether a reader and a walk find the same node.
fn agrees_at(reader: &mut Reader, tree: &Tree, offset: Length, ask: Ask) -> bool
    requires { ¬ IsLess offset reader.old.reached }
    ensures { reader.new.reached ≡ offset }
{
    let read = reader.longest(offset, ask);
    let found = match &tree.root {
        Some(root) => found_by_walk(root, START, offset, ask, 1000),
        None => None,
    };
    is_same(read, found)
}

/// Whether they find the same nodes at offsets that rise from the start, each with a question of its own.
fn agrees(alloc: Global, tree: &Tree, seed: u32, count: u32) -> Result<bool, AllocError> {
    let mut reader = Reader::new(alloc, tree)?;
    let mut state = seed;
    let mut offset = START;
    for _ in 0..count {
        state = random(state);
        if !agrees_at(&mut reader, tree, offset, ask_by(state)) {
            return Ok(false);
        }
        offset = later(offset, state);
    }
    Ok(true)
}

/// How many columns the node takes that a reader finds in the first line.
fn columns_at(reader: &mut Reader, col: u32, ask: Ask) -> Option<u32>
    requires { ¬ IsLess (record { lines = 0; cols = col }) reader.old.reached }
    ensures { reader.new.reached ≡ record { lines = 0; cols = col } }
{
    match reader.longest(columns(col), ask) {
        Some(node) => Some(node.length().cols),
        None => None,
    }
}

#[test]
fn a_reader_finds_what_a_walk_finds(rt: HostRuntime) -> Result<(), Fail> {
    for seed in 0..500 {
        let limit = if seed % 2 == 0 { 300 } else { seed % 5 };
        let file = text_by(rt.alloc(), seed, seed % 71)?;
        let text = Text::from_bytes(rt.alloc(), file.as_str().as_bytes())?;
        let lines = lines_of(rt.alloc(), &text)?;
        let tree = tree_of(rt.alloc(), &lines, limit)?;
        assert!(rt; agrees(rt.alloc(), &tree, seed, 200)?, "seed {seed}");
    }
    Ok(())
}

#[test]
fn paths_of_many_pairs_are_kept(rt: HostRuntime) -> Result<(), Fail> {
    let mut file = String::new(rt.alloc());
    for _ in 0..250 {
        file.push_str("(a[]")?;
    }
    for _ in 0..250 {
        file.push_str("b)c")?;
    }
    let text = Text::from_bytes(rt.alloc(), file.as_str().as_bytes())?;
    let lines = lines_of(rt.alloc(), &text)?;
    let tree = tree_of(rt.alloc(), &lines, 300)?;
    for seed in 0..4 {
        assert!(rt; agrees(rt.alloc(), &tree, seed, 2000)?, "seed {seed}");
    }
    Ok(())
}

#[test]
fn the_longest_is_taken_at_each_offset(rt: HostRuntime) -> Result<(), Fail> {
    let text = Text::from_bytes(rt.alloc(), b"([)]")?;
    let lines = lines_of(rt.alloc(), &text)?;
    let tree = tree_of(rt.alloc(), &lines, 300)?;
    let mut reader = Reader::new(rt.alloc(), &tree)?;
    assert!(rt;
        columns_at(&mut reader, 0, in_columns(4)) == Some(4),
        "the list"
    );
    assert!(rt;
        columns_at(&mut reader, 0, in_columns(3)) == Some(3),
        "the pair"
    );
    assert!(rt;
        columns_at(&mut reader, 0, in_columns(2)) == None,
        "nothing is as short"
    );
    assert!(rt;
        columns_at(&mut reader, 1, in_columns(4)) == None,
        "a pair without closer"
    );
    assert!(rt;
        columns_at(&mut reader, 2, in_columns(4)) == None,
        "a closer"
    );
    assert!(rt;
        columns_at(&mut reader, 3, in_columns(4)) == Some(1),
        "a closer of nothing"
    );
    assert!(rt;
        columns_at(&mut reader, 4, in_columns(4)) == None,
        "the end"
    );
    Ok(())
}

#[test]
fn a_tree_without_root_has_no_nodes(rt: HostRuntime) -> Result<(), Fail> {
    let tree = Tree { root: None };
    let mut reader = Reader::new(rt.alloc(), &tree)?;
    assert!(rt; columns_at(&mut reader, 0, in_columns(4)) == None);
    assert!(rt; columns_at(&mut reader, 7, in_columns(4)) == None);
    Ok(())
}
