ghost use Rattle.std.specs.Prelude.{◌≡◌, ◌<◌, ◌≤◌, ◌^◌, IfOk, length};
ghost use Rattle.bracket_marks.specs.MarkedLine.{marks_in};
ghost use Rattle.mark_source.specs.Source.{AreMarked};

use crate::walk::{row, rows_of};
use bracket_ast::Tree;
use bracket_lex::{Brackets, MarkLines, Paired};
use line_text::Text;
use mark_source::MarkReader;
use reuse_parser::parse;
use std::alloc::{AllocError, Global};
use std::marker::Brand;
use std::sync::ledger::{Blank, Ledger};
use std::test::Fail;
use step_count::Steps;
use text_pos::Length;

/// The rows of pairing by one stack, shown as those of a tree.
fn rows_of_pairing(alloc: Global, paired: &Paired) -> Result<String, AllocError> {
    let mut text = String::new(alloc);
    for found in paired.rows() {
        let mark = found.mark;
        let at = Length {
            lines: mark.at.line,
            cols: mark.at.col,
        };
        let inner = Length {
            lines: found.inner.line,
            cols: found.inner.col,
        };
        row(
            alloc,
            &mut text,
            at,
            mark.to,
            found.level as usize,
            found.own as usize,
            found.colour as usize,
            inner,
        )?;
    }
    Ok(text)
}

/// The lines of a text, with the marks of the usual pairs.
fn lines_of(alloc: Global, text: &Text) -> Result<MarkLines, AllocError>
    ensures marked { IfOk result (λ lines. AreMarked lines) }
    ensures some { IfOk result (λ lines. 0 < length lines) }
    ensures few { IfOk result (λ lines. length (marks_in lines) < 2 ^ 32) }
{
    let brackets = Brackets::usual(alloc)?;
    let lines = MarkLines::of_text(alloc, &brackets, text, 20_000)?;
    Ok(lines)
}

/// The tree of the marks of some lines.
fn tree_of<L: Ledger>(
    alloc: Global,
    lines: &MarkLines,
    limit: u32,
    blank: Blank,
) -> Result<Tree, AllocError>
    requires marked { AreMarked lines.now }
    requires lines { 0 < length lines.now }
    requires limit { limit ≤ 300 }
    requires name { blank.name ≡ L.name }
    requires parts { blank.parts ≡ L.parts }
    requires some { 0 < blank.parts }
{
    let mut reader = MarkReader::new(lines);
    let mut steps = Steps::<L>::begin(blank);
    parse(alloc, &mut reader, limit, &mut steps)
}

/// The rows of the tree of some lines.
fn rows_by_tree(alloc: Global, lines: &MarkLines, limit: u32) -> Result<String, AllocError>
    requires marked { AreMarked lines.now }
    requires lines { 0 < length lines.now }
    requires limit { limit ≤ 300 }
{
    let tree = tree_of::<Brand>(alloc, lines, limit, Blank::new(1))?;
    rows_of(alloc, &tree)
}

/// A text of brackets, letters and line ends that a number tells.
fn text_by(alloc: Global, seed: u32, count: u32) -> Result<String, AllocError> {
    let mut text = String::new(alloc);
    let mut state = seed;
    for _ in 0..count {
        state = state.wrapping_mul(1_664_525).wrapping_add(1_013_904_223);
        text.push(match (state >> 16) % 10 {
            0 | 1 => '(',
            2 => '[',
            3 => '{',
            4 | 5 => ')',
            6 => ']',
            7 => '}',
            8 => 'a',
            _ => '\n',
        })?;
    }
    Ok(text)
}

#[test]
fn trees_have_the_rows_of_the_pairing(rt: HostRuntime) -> Result<(), Fail> {
    for seed in 0..600 {
        let limit = if seed % 2 == 0 { 300 } else { seed % 5 };
        let file = text_by(rt.alloc(), seed, seed % 71)?;
        let text = Text::from_bytes(rt.alloc(), file.as_str().as_bytes())?;
        let lines = lines_of(rt.alloc(), &text)?;
        let paired = Paired::of(rt.alloc(), &lines, lines.end(), limit)?;
        assert_eq!(rt;
            rows_by_tree(rt.alloc(), &lines, limit)?.as_str(),
            rows_of_pairing(rt.alloc(), &paired)?.as_str(),
            "seed {seed}"
        );
    }
    Ok(())
}
