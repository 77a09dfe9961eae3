//! Tests show that token types decide which brackets count, and how questions are answered or refused.

use crate::marked::Marked;
use crate::steps::{LIMITS, Step, all_go};
use answer_defs::Question;
use bracket_lex::{BracketRefusal, Brackets, PairText, PairTexts};
use line_machine::Machine;
use line_machine_tests::rows::{block, group, has_root, single, table};
use std::alloc::{AllocError, Global};
use std::test::Fail;
use text_pos::{Name, Pos};

fn at(line: u32, col: u32) -> Pos {
    Pos { line, col }
}

/// The brackets from the first line to this one.
fn rows<'a>(to: u32, wanted: &'a str) -> Step<'a> {
    Step::Asked(Question::Brackets { from: 0, to }, wanted)
}

fn tokens<'a>(line: u32, wanted: &'a str) -> Step<'a> {
    Step::Asked(Question::Tokens { line }, wanted)
}

/// Rules of strings and comments.
fn small_grammar(alloc: Global) -> Result<Machine, AllocError> {
    let string = single("string", "\"[^\"]*\"", &[]);
    let comment = block("comment", "/\\*", "\\*/", &[]);
    let table = table(alloc, &[group(&[1, 2]), string, comment])?;
    if !has_root(&table) {
        return Err(AllocError);
    }
    Machine::new(alloc, table, "s", 0, LIMITS)
}

fn by_grammar(alloc: Global, text: &[u8], steps: &[Step<'_>]) -> Result<bool, AllocError> {
    let brackets = Brackets::usual(alloc)?;
    all_go(alloc, small_grammar(alloc)?, brackets, text, steps)
}

fn without_grammar(alloc: Global, text: &[u8], steps: &[Step<'_>]) -> Result<bool, AllocError> {
    let brackets = Brackets::usual(alloc)?;
    all_go(alloc, Machine::plain(alloc, LIMITS)?, brackets, text, steps)
}

/// The brackets `("` and `")`.
fn quoted(alloc: Global) -> Result<Brackets, AllocError> {
    let mut pairs = PairTexts::new(alloc);
    pairs.push(PairText {
        opener: Name::of(alloc, "(\"")?,
        closer: Name::of(alloc, "\")")?,
    })?;
    match Brackets::new(alloc, &pairs) {
        Ok(brackets) => Ok(brackets),
        Err(BracketRefusal::Memory) => Err(AllocError),
        Err(_) => Brackets::usual(alloc),
    }
}

#[test]
fn a_bracket_in_a_string_does_not_count(rt: HostRuntime) -> Result<(), Fail> {
    let text = b"f(\"(\") [x]";
    let by_tokens = rows(0, "0:1-2 0;0:5-6 0;0:7-8 0;0:9-10 0;");
    assert!(rt; by_grammar(rt.alloc(), text, &[by_tokens])?);
    let by_columns = rows(0, "0:1-2 0;0:3-4 1;0:5-6 1;0:7-8 1;0:9-10 1;");
    assert!(rt; without_grammar(rt.alloc(), text, &[by_columns])?);
    Ok(())
}

#[test]
fn a_mark_half_inside_a_string_does_not_count(rt: HostRuntime) -> Result<(), Fail> {
    let alloc = rt.alloc();
    let text = b"f(\"a\")";
    let brackets = quoted(alloc)?;
    let by_columns = rows(0, "0:1-3 0;0:4-6 0;");
    assert!(rt;
        all_go(
            alloc,
            Machine::plain(alloc, LIMITS)?,
            brackets,
            text,
            &[by_columns]
        )?
    );
    let brackets = quoted(alloc)?;
    assert!(rt; all_go(alloc, small_grammar(alloc)?, brackets, text, &[rows(0, "")])?);
    Ok(())
}

#[test]
fn an_edit_that_opens_a_comment_changes_later_lines(rt: HostRuntime) -> Result<(), Fail> {
    let steps = [
        rows(2, "0:1-2 0;1:1-2 0;2:0-1 0;"),
        Step::Inserted(at(0, 1), "/*"),
        rows(2, ""),
        Step::Inserted(at(1, 0), "*/"),
        rows(2, "1:3-4 0;2:0-1 0;"),
    ];
    assert!(rt; by_grammar(rt.alloc(), b"a(\nb)\n(c", &steps)?);
    Ok(())
}

#[test]
fn another_object_gives_the_tokens(rt: HostRuntime) -> Result<(), Fail> {
    let alloc = rt.alloc();
    let steps = [
        rows(2, "0:1-2 0;1:1-2 0;2:0-1 0;"),
        Step::Inserted(at(1, 0), "#\n#(\n("),
        rows(4, "0:1-2 0;3:0-1 1;3:2-3 1;4:0-1 1;"),
        Step::Inserted(at(0, 0), "#"),
        rows(4, ""),
        tokens(4, "0-2 1 comment;"),
    ];
    let brackets = Brackets::usual(alloc)?;
    let marked = Marked::new(alloc, LIMITS)?;
    assert!(rt; all_go(alloc, marked, brackets, b"a(\nb)\n(c", &steps)?);
    Ok(())
}

#[test]
fn tokens_of_a_line(rt: HostRuntime) -> Result<(), Fail> {
    let text = b"a /*\n*/ \"b\" c\n";
    let steps = [
        tokens(0, "0-2 0 s;2-4 1 s comment;"),
        tokens(1, "0-2 1 s comment;2-3 0 s;3-6 2 s string;6-8 0 s;"),
        tokens(2, "0-0 0 s;"),
    ];
    assert!(rt; by_grammar(rt.alloc(), text, &steps)?);
    let line = Question::Line { line: 1 };
    let steps = [tokens(1, "0-8 0;"), Step::Asked(line, "*/ \"b\" c")];
    assert!(rt; without_grammar(rt.alloc(), text, &steps)?);
    Ok(())
}

#[test]
fn lines_are_refused_before_places(rt: HostRuntime) -> Result<(), Fail> {
    let steps = [
        Step::Asked(Question::Match { at: at(2, 9) }, "line 2"),
        Step::Asked(Question::Match { at: at(0, 3) }, "place 2"),
        Step::Asked(Question::Around { at: at(1, 5) }, "place 4"),
        Step::Asked(Question::Tokens { line: 2 }, "line 2"),
        Step::Asked(Question::Line { line: 2 }, "line 2"),
        Step::Asked(Question::Brackets { from: 1, to: 0 }, "line 2"),
        Step::Asked(Question::Pairs { from: 0, to: 2 }, "line 2"),
        Step::Refused(at(2, 0), "("),
    ];
    assert!(rt; by_grammar(rt.alloc(), b"ab\n(\"\")", &steps)?);
    Ok(())
}

#[test]
fn questions_about_pairs(rt: HostRuntime) -> Result<(), Fail> {
    let steps = [
        Step::Asked(Question::Match { at: at(1, 0) }, "1:0 1:3"),
        Step::Asked(Question::Around { at: at(1, 2) }, "1:0 1:3"),
        Step::Asked(Question::Jump { at: at(0, 0) }, "1:0"),
        Step::Asked(Question::Level { at: at(1, 1) }, "level 1"),
        Step::Asked(Question::Pairs { from: 0, to: 1 }, "1 pairs"),
        Step::Asked(Question::Guides { from: 0, to: 1 }, "0 guides"),
    ];
    assert!(rt; by_grammar(rt.alloc(), b"ab\n(\"\")", &steps)?);
    Ok(())
}

/// So many lines, and an opener in the last.
fn long_text(alloc: Global) -> Result<Vec<u8>, AllocError> {
    let mut text = Vec::new(alloc);
    for _ in 0..4096 {
        text.push(b'\n')?;
    }
    text.push(b'(')?;
    Ok(text)
}

#[test]
fn a_range_of_lines_has_at_most_4096(rt: HostRuntime) -> Result<(), Fail> {
    let text = long_text(rt.alloc())?;
    let last = Question::Brackets { from: 1, to: 4096 };
    let steps = [rows(4096, "line 4097"), Step::Asked(last, "4096:0-1 0;")];
    assert!(rt; without_grammar(rt.alloc(), &text, &steps)?);
    Ok(())
}
