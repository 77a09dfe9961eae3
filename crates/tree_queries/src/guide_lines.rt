//! Guides: where the lines of a pair show that they are in it.
ghost use Rattle.std.specs.Prelude.{◌≡◌, ℕ, suc, ◌+◌, ◌-◌, ◌++◌, ◌<◌, ◌≤◌, ◌^◌, flat_map, length, List, [], IfOk, OnOk};
ghost use Rattle.std.specs.List.{range_with_len};
ghost use Rattle.bracket_ast.specs.Shapes.{or_nothing, nows};
ghost use Rattle.text_defs.specs.Text.{lines_of, line_count};
ghost use Rattle.answer_defs.specs.PairAnswers.{guides_in, guide_row};
ghost use Rattle.tree_defs.specs.Tree.{depth};
ghost use Rattle.tree_defs.specs.Rows.{start};
ghost use Rattle.tree_queries.specs.Known.{known};
ghost use Rattle.tree_queries.specs.Answers.{guides_known};
ghost use Rattle.tree_queries.specs.Told.{IsPlaced, AnswersFrom};
ghost use Rattle.tree_queries.specs.Parts.{Placed, guide_of, has_line};

use crate::parts::{PairAt, START, child_at, pair_at, surrounds};
use answer_defs::{GuideRow, GuideRows, MOST_TAB};
use bracket_ast::{Node, Sort, Tree};
use line_text::Text;
use pair_queries::indentation_of;
use std::alloc::{AllocError, Global};
use text_pos::{Length, Pos};

/// The guides of the lines `from` to `to`, by line and then by level: each closed pair has one in each line behind its
/// opener's, up to its closer's. A column is as far in as the lesser of the indentations of those two lines, where a
/// tab goes to the next multiple of `tab`. As VS Code's bracket pair guides, but for the column.
pub fn guides(
    alloc: Global,
    tree: &Tree,
    text: &Text,
    tab: u32,
    from: u32,
    to: u32,
) -> Result<GuideRows, AllocError>
    requires placed { IsPlaced (or_nothing tree.now.root) }
    requires some { 1 ≤ tab }
    requires few { tab ≤ MOST_TAB }
    requires last { to < line_count text.now }
    ensures { IfOk result (λ found. AnswersFrom (or_nothing tree.now.root) (λ rows. guides_in tab (lines_of text.now) rows from to) found) }
{
    match &tree.root {
        Some(root) => guides_of(alloc, root, text, tab, from, to),
        None => Ok(GuideRows::new(alloc)),
    }
}

fn guides_of(
    alloc: Global,
    root: &Node,
    text: &Text,
    tab: u32,
    from: u32,
    to: u32,
) -> Result<GuideRows, AllocError>
    requires placed { Placed root.now start }
    requires some { 1 ≤ tab }
    requires few { tab ≤ MOST_TAB }
    requires last { to < line_count text.now }
    ensures { IfOk result (λ found. found ≡ flat_map (guides_known tab (lines_of text.now) (known root.now start [])) (range_with_len from (suc to - from))) }
{
    let lines = text.lines();
    prove!(to < lines);
    let _depth = root.depth();
    let mut found = GuideRows::new(alloc);
    for line in from..to + 1 {
        add_guides(&mut found, root, START, 0, text, tab, line)?;
    }
    Ok(found)
}

/// Adds the guides of a node in a line. `level` pairs are around the node.
#[cycle(guides)]
fn add_guides(
    found: &mut GuideRows,
    node: &Node,
    at: Length,
    level: u32,
    text: &Text,
    tab: u32,
    line: u32,
) -> Result<(), AllocError>
    requires placed { Placed node.now at }
    requires some { 1 ≤ tab }
    requires few { tab ≤ MOST_TAB }
    requires deep { level + depth node.now < 2 ^ 32 }
    ensures { OnOk result ((kinds : List ℕ) → length kinds ≡ level → found.new ≡ found.old ++ guides_known tab (lines_of text.now) (known node.now at kinds) line) }
{
    let place = Pos { line, col: 0 };
    match node.sort() {
        Sort::Pair => {
            let pair = pair_at(node, at);
            if surrounds(&pair, place) {
                add_guide(found, &pair, level, text, tab, line)?;
                add_guides_inside(found, &pair, level + 1, text, tab, line)
            } else {
                Ok(())
            }
        }
        Sort::List => {
            let child = child_at(node, at, place, false);
            add_guides(found, child.node, child.from, level, text, tab, line)
        }
        _ => Ok(()),
    }
}

#[cycle(guides)]
fn add_guides_inside(
    found: &mut GuideRows,
    pair: &PairAt,
    level: u32,
    text: &Text,
    tab: u32,
    line: u32,
) -> Result<(), AllocError>
    requires placed { Placed (or_nothing (nows pair.now.inside)) pair.now.begin }
    requires some { 1 ≤ tab }
    requires few { tab ≤ MOST_TAB }
    requires deep { level + depth (or_nothing (nows pair.now.inside)) < 2 ^ 32 }
    ensures { OnOk result ((kinds : List ℕ) → length kinds ≡ level → found.new ≡ found.old ++ guides_known tab (lines_of text.now) (known (or_nothing (nows pair.now.inside)) pair.now.begin kinds) line) }
{
    match pair.inside {
        Some(inside) => add_guides(found, inside, pair.begin, level, text, tab, line),
        None => Ok(()),
    }
}

/// Adds the guide of a closed pair in a line that lies behind its opener's.
fn add_guide(
    found: &mut GuideRows,
    pair: &PairAt,
    level: u32,
    text: &Text,
    tab: u32,
    line: u32,
) -> Result<(), AllocError>
    requires some { 1 ≤ tab }
    requires few { tab ≤ MOST_TAB }
    ensures { OnOk result (found.new ≡ found.old ++ guide_of tab (lines_of text.now) line level pair.now) }
{
    if pair.closer.is_some() && pair.opener.line < line {
        let opener = indentation_of(text, tab, pair.opener.line);
        let closer = indentation_of(text, tab, pair.end.lines);
        found.push(GuideRow {
            line,
            column: opener.min(closer),
            level,
        })?;
    }
    Ok(())
}
