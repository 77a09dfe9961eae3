//! Tests that show that marks come in order from a place on.

ghost use Rattle.std.specs.Prelude.{◌≡◌, ◌<◌, IfOk, length};
ghost use Rattle.mark_source.specs.Source.{AreMarked};

use bracket_lex::{Brackets, MarkLines};
use line_text::Text;
use mark_source::{MarkReader, MarkSource};
use std::alloc::{AllocError, Global};
use std::marker::Brand;
use std::sync::ledger::{Blank, Ledger};
use std::test::Fail;
use step_count::Steps;
use text_pos::Pos;

/// The starts of all marks that a source still gives, each with its end.
fn rest<S: MarkSource, M: Ledger>(
    alloc: Global,
    source: &mut S,
    steps: &mut Steps<M>,
) -> Result<String, AllocError> {
    let mut told = String::new(alloc);
    for _ in 0..u64::MAX {
        let peeked = source.peek();
        let Some(mark) = source.next(steps) else {
            break;
        };
        let as_peeked = peeked == Some(mark.at);
        let text = format!(in alloc; "{}:{}-{} {as_peeked} ", mark.at.line, mark.at.col, mark.to)?;
        told.push_str(text.as_str())?;
    }
    Ok(told)
}

/// The lines of a text, with the marks of the usual pairs.
fn lines_of(alloc: Global, text: &Text) -> Result<MarkLines, AllocError>
    ensures marked { IfOk result (λ lines. AreMarked lines) }
    ensures some { IfOk result (λ lines. 0 < length lines) }
{
    let brackets = Brackets::usual(alloc)?;
    let lines = MarkLines::of_text(alloc, &brackets, text, 20_000)?;
    Ok(lines)
}

/// The marks of some lines from a place on, and the place of their end.
fn gives<M: Ledger>(
    alloc: Global,
    lines: &MarkLines,
    from: Pos,
    blank: Blank,
) -> Result<String, AllocError>
    requires marked { AreMarked lines.now }
    requires lines { 0 < length lines.now }
    requires name { blank.name ≡ M.name }
    requires parts { blank.parts ≡ M.parts }
    requires some { 0 < blank.parts }
{
    let mut steps = Steps::<M>::begin(blank);
    let mut source = MarkReader::new(lines);
    source.seek(from);
    let end = source.end();
    let told = rest(alloc, &mut source, &mut steps)?;
    Ok(format!(in alloc; "{told}{}:{}", end.line, end.col)?)
}

/// The same of a text, with a count of its own.
fn told_from(alloc: Global, text: &Text, from: Pos) -> Result<String, AllocError> {
    let lines = lines_of(alloc, text)?;
    gives::<Brand>(alloc, &lines, from, Blank::new(1))
}

#[test]
fn marks_come_in_order_from_a_place(rt: HostRuntime) -> Result<(), Fail> {
    for (text, line, col, told) in [
        ("", 0, 0, "0:0"),
        ("a", 0, 1, "0:1"),
        (
            "a(b\n\n[]{\n)",
            0,
            0,
            "0:1-2 true 2:0-1 true 2:1-2 true 2:2-3 true 3:0-1 true 3:1",
        ),
        (
            "a(b\n\n[]{\n)",
            0,
            1,
            "0:1-2 true 2:0-1 true 2:1-2 true 2:2-3 true 3:0-1 true 3:1",
        ),
        (
            "a(b\n\n[]{\n)",
            0,
            2,
            "2:0-1 true 2:1-2 true 2:2-3 true 3:0-1 true 3:1",
        ),
        (
            "a(b\n\n[]{\n)",
            1,
            0,
            "2:0-1 true 2:1-2 true 2:2-3 true 3:0-1 true 3:1",
        ),
        (
            "a(b\n\n[]{\n)",
            2,
            1,
            "2:1-2 true 2:2-3 true 3:0-1 true 3:1",
        ),
        ("a(b\n\n[]{\n)", 2, 9, "3:0-1 true 3:1"),
        ("a(b\n\n[]{\n)", 3, 1, "3:1"),
        ("a(b\n\n[]{\n)", 9, 0, "3:1"),
        ("(\n\n\n", 0, 1, "3:0"),
        ("\u{e9}(", 0, 0, "0:1-2 true 0:2"),
    ] {
        let read = Text::from_bytes(rt.alloc(), text.as_bytes())?;
        assert_eq!(rt;
            told_from(rt.alloc(), &read, Pos { line, col })?.as_str(),
            told,
            "{text} {line}:{col}"
        );
    }
    Ok(())
}
