//! Texts of brackets, their rows, and their trees.
ghost use Rattle.std.specs.Prelude.{◌≡◌, ◌<◌, ◌≤◌, ◌^◌, IfOk, length};
ghost use Rattle.bracket_marks.specs.MarkedLine.{marks_in};
ghost use Rattle.mark_source.specs.Source.{AreMarked};

use bracket_ast::Tree;
use bracket_lex::{Brackets, MarkLines};
use line_text::Text;
use mark_source::MarkReader;
use reuse_parser::parse;
use std::alloc::{AllocError, Global};
use std::marker::Brand;
use std::sync::ledger::{Blank, Ledger};
use step_count::Steps;

/// The lines of a text, with the marks of the usual pairs.
pub(crate) fn lines_of(alloc: Global, text: &Text) -> Result<MarkLines, AllocError>
    ensures marked { IfOk result (λ lines. AreMarked lines) }
    ensures some { IfOk result (λ lines. 0 < length lines) }
    ensures few { IfOk result (λ lines. length (marks_in lines) < 2 ^ 32) }
{
    let brackets = Brackets::usual(alloc)?;
    let lines = MarkLines::of_text(alloc, &brackets, text, 20_000)?;
    Ok(lines)
}

/// The tree of the marks of some lines.
pub(crate) fn tree_of(alloc: Global, lines: &MarkLines, limit: u32) -> Result<Tree, AllocError>
    requires marked { AreMarked lines.now }
    requires lines { 0 < length lines.now }
    requires limit { limit ≤ 300 }
{
    counted_tree_of::<Brand>(alloc, lines, limit, Blank::new(1))
}

fn counted_tree_of<L: Ledger>(
    alloc: Global,
    lines: &MarkLines,
    limit: u32,
    blank: Blank,
) -> Result<Tree, AllocError>
    requires marked { AreMarked lines.now }
    requires lines { 0 < length lines.now }
    requires limit { limit ≤ 300 }
    requires name { blank.name ≡ L.name }
    requires parts { blank.parts ≡ L.parts }
    requires some { 0 < blank.parts }
{
    let mut reader = MarkReader::new(lines);
    let mut steps = Steps::<L>::begin(blank);
    parse(alloc, &mut reader, limit, &mut steps)
}

/// A text of brackets, letters and line ends that a number tells.
pub(crate) fn text_by(alloc: Global, seed: u32, count: u32) -> Result<String, AllocError> {
    let mut text = String::new(alloc);
    let mut state = seed;
    for _ in 0..count {
        state = state.wrapping_mul(1_664_525).wrapping_add(1_013_904_223);
        text.push(match (state >> 16) % 10 {
            0 | 1 => '(',
            2 => '[',
            3 => '{',
            4 | 5 => ')',
            6 => ']',
            7 => '}',
            8 => ' ',
            _ => '\n',
        })?;
    }
    Ok(text)
}
