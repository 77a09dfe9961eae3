//! The marks of a text and their tree.
ghost use Rattle.std.specs.Prelude.{◌≡◌, ◌<◌, ◌≤◌, IfOk, length};
ghost use Rattle.bracket_ast.specs.Shapes.{or_nothing};
ghost use Rattle.mark_source.specs.Source.{AreMarked};
ghost use Rattle.tree_queries.specs.Told.{IsPlaced};

use bracket_ast::Tree;
use bracket_lex::{Brackets, MarkLines};
use line_text::Text;
use mark_source::MarkReader;
use reuse_parser::parse;
use std::alloc::{AllocError, Global};
use std::marker::Brand;
use std::sync::ledger::{Blank, Ledger};
use step_count::Steps;

/// The lines of a text, with the marks of the usual pairs.
pub(crate) fn lines_of(alloc: Global, text: &Text) -> Result<MarkLines, AllocError>
    ensures marked { IfOk result (λ lines. AreMarked lines) }
    ensures some { IfOk result (λ lines. 0 < length lines) }
{
    let brackets = Brackets::usual(alloc)?;
    let lines = MarkLines::of_text(alloc, &brackets, text, 20_000)?;
    Ok(lines)
}

/// The tree of the marks of some lines.
pub(crate) fn tree_of(alloc: Global, lines: &MarkLines, limit: u32) -> Result<Tree, AllocError>
    requires marked { AreMarked lines.now }
    requires lines { 0 < length lines.now }
    requires limit { limit ≤ 300 }
    ensures { IfOk result (λ tree. IsPlaced (or_nothing tree.root)) }
{
    counted_tree_of::<Brand>(alloc, lines, limit, Blank::new(1))
}

fn counted_tree_of<L: Ledger>(
    alloc: Global,
    lines: &MarkLines,
    limit: u32,
    blank: Blank,
) -> Result<Tree, AllocError>
    requires marked { AreMarked lines.now }
    requires lines { 0 < length lines.now }
    requires limit { limit ≤ 300 }
    requires name { blank.name ≡ L.name }
    requires parts { blank.parts ≡ L.parts }
    requires some { 0 < blank.parts }
    ensures { IfOk result (λ tree. IsPlaced (or_nothing tree.root)) }
{
    let mut reader = MarkReader::new(lines);
    let mut steps = Steps::<L>::begin(blank);
    parse(alloc, &mut reader, limit, &mut steps)
}
