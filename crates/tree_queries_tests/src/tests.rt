//! Shows that descents of a tree answer about places and ranges of lines as filters of rows do.

ghost use Rattle.std.specs.Prelude.{◌<◌, ◌^◌, length};
ghost use Rattle.bracket_ast.specs.Shapes.{or_nothing};
ghost use Rattle.text_defs.specs.Text.{line_count};
ghost use Rattle.tree_queries.specs.Told.{IsPlaced};

use crate::texts::{lines_of, text_by, tree_of};
use bracket_ast::Tree;
use bracket_lex::Paired;
use line_text::Text;
use pairing_defs::Row;
use std::alloc::{AllocError, Global};
use std::test::Fail;
use text_pos::Pos;

/// Whether each question about a place has one answer, by a descent and over rows.
fn places_agree(tree: &Tree, rows: &[Row], at: Pos) -> bool
    requires placed { IsPlaced (or_nothing tree.now.root) }
    requires few { length rows.now < 2 ^ 32 }
{
    let levels = tree_queries::level_at(tree, at) == pair_queries::level_at(rows, at);
    let matches = tree_queries::match_at(tree, at) == pair_queries::match_at(rows, at);
    let around = tree_queries::around(tree, at) == pair_queries::around(rows, at);
    let jumps = tree_queries::jump(tree, at) == pair_queries::jump(rows, at);
    levels && matches && around && jumps
}

/// Whether each question about a range of lines has one answer, by a descent and over rows.
fn ranges_agree(
    alloc: Global,
    tree: &Tree,
    rows: &[Row],
    text: &Text,
    from: u32,
    to: u32,
) -> Result<bool, AllocError>
    requires placed { IsPlaced (or_nothing tree.now.root) }
    requires last { to < line_count text.now }
{
    let brackets = tree_queries::brackets(alloc, tree, from, to)?;
    let of_rows = pair_queries::brackets(alloc, rows, from, to)?;
    let same_brackets = brackets.as_slice() == of_rows.as_slice();
    let pairs = tree_queries::pairs(alloc, tree, from, to)?;
    let of_rows = pair_queries::pairs(alloc, rows, from, to)?;
    let same_pairs = pairs.as_slice() == of_rows.as_slice();
    let guides = tree_queries::guides(alloc, tree, text, 4, from, to)?;
    let of_rows = pair_queries::guides(alloc, rows, text, 4, from, to)?;
    let same_guides = guides.as_slice() == of_rows.as_slice();
    Ok(same_brackets && same_pairs && same_guides)
}

#[test]
fn descents_answer_as_filters_of_rows(rt: HostRuntime) -> Result<(), Fail> {
    for seed in 0..400 {
        let limit = if seed % 2 == 0 { 300 } else { seed % 5 };
        let file = text_by(rt.alloc(), seed, seed % 71)?;
        let text = Text::from_bytes(rt.alloc(), file.as_str().as_bytes())?;
        let lines = lines_of(rt.alloc(), &text)?;
        let paired = Paired::of(rt.alloc(), &lines, lines.end(), limit)?;
        let tree = tree_of(rt.alloc(), &lines, limit)?;
        let rows = paired.rows();
        assert!(rt; rows.len() <= 71);
        for line in 0..text.lines() {
            for col in 0..12 {
                assert!(rt;
                    places_agree(&tree, rows, Pos { line, col }),
                    "seed {seed}, line {line}, column {col}"
                );
            }
        }
    }
    Ok(())
}

#[test]
fn ranges_of_lines_agree(rt: HostRuntime) -> Result<(), Fail> {
    for seed in 0..200 {
        let limit = if seed % 2 == 0 { 300 } else { seed % 5 };
        let file = text_by(rt.alloc(), seed, seed % 71)?;
        let text = Text::from_bytes(rt.alloc(), file.as_str().as_bytes())?;
        let lines = lines_of(rt.alloc(), &text)?;
        let paired = Paired::of(rt.alloc(), &lines, lines.end(), limit)?;
        let tree = tree_of(rt.alloc(), &lines, limit)?;
        for to in 0..text.lines() {
            for from in [0, to / 2, to] {
                assert!(rt;
                    ranges_agree(rt.alloc(), &tree, paired.rows(), &text, from, to)?,
                    "seed {seed}, lines {from} to {to}"
                );
            }
        }
    }
    Ok(())
}
