//! Tests show which texts are marks, that only type Other has marks, and where the limits of brackets lie.

use bracket_marks::{BracketRefusal, Brackets, LineMarks};
use line_text::Text;
use pairing_defs::{PairText, PairTexts, Role};
use scope_defs::{StdType, TypeRun};
use std::alloc::{AllocError, Global};
use std::test::Fail;
use text_pos::Name;

/// The pairs of texts that stand in turn.
fn pairs_of(alloc: Global, texts: &[&str]) -> Result<PairTexts, AllocError> {
    let mut pairs = PairTexts::new(alloc);
    for pair in texts.chunks(2) {
        if let [opener, closer] = pair {
            pairs.push(PairText {
                opener: Name::of(alloc, opener)?,
                closer: Name::of(alloc, closer)?,
            })?;
        }
    }
    Ok(pairs)
}

/// Each mark as its columns, and what it opens or closes of the kinds 0 to 3.
fn shown(alloc: Global, marks: &LineMarks) -> Result<String, AllocError> {
    let mut text = String::new(alloc);
    for mark in marks.marks() {
        let columns = format!(in alloc; "{}-{}", mark.from, mark.to)?;
        text.push_str(columns.as_str())?;
        match mark.role {
            Role::Opener(kind) => {
                let opens = format!(in alloc; "+{kind} ")?;
                text.push_str(opens.as_str())?;
            }
            Role::Closer(kinds) => {
                text.push('-')?;
                for kind in 0..4 {
                    if kinds.has(kind) {
                        let closes = format!(in alloc; "{kind}")?;
                        text.push_str(closes.as_str())?;
                    }
                }
                text.push(' ')?;
            }
        }
    }
    Ok(text)
}

/// The marks of a line, of which the first `string` columns are a string, and the next `other` count. What is left is a
/// comment.
fn marks_of(
    alloc: Global,
    texts: &[&str],
    line: &str,
    string: u32,
    other: u32,
) -> Result<String, Fail> {
    let pairs = pairs_of(alloc, texts)?;
    let Ok(brackets) = Brackets::new(alloc, &pairs) else {
        return Ok(String::from_str(alloc, "refused")?);
    };
    let text = Text::from_bytes(alloc, line.as_bytes())?;
    let types = [
        TypeRun {
            to: string,
            kind: StdType::Text,
        },
        TypeRun {
            to: other,
            kind: StdType::Other,
        },
        TypeRun {
            to: 4_000_000_000,
            kind: StdType::Comment,
        },
    ];
    if text.lines() == 1 {
        let marks = brackets.marks(alloc, text.line(0), &types, 20_000)?;
        return Ok(shown(alloc, &marks)?);
    }
    Ok(String::from_str(alloc, "lines")?)
}

#[test]
fn marks_are_the_texts_of_pairs_that_are_kept(rt: HostRuntime) -> Result<(), Fail> {
    let cases: [(&[&str], &str, &str); 11] = [
        (&["(", ")", "[", "]"], "([)]", "0-1+0 1-2+1 2-3-0 3-4-1 "),
        (&[], "()", ""),
        (&["", ")", "(", "", "|", "|"], "(|)", ""),
        (&["a", "b", "b", "c", "d", "a"], "a b c d", "0-1+0 2-3-0 "),
        (
            &["a", "b", "b", "c", "d", "b", "e", "c"],
            "a b c d e",
            "0-1+0 2-3-01 4-5-2 6-7+1 8-9+2 ",
        ),
        (
            &["if", "end", "do", "end", "if", "fi"],
            "if do end fi",
            "0-2+0 3-5+1 6-9-01 10-12-0 ",
        ),
        (
            &["<", ">", "<<", ">>", "<!--", "-->"],
            "<<<!-->>-->",
            "0-2+1 2-6+2 6-8-1 8-11-2 ",
        ),
        (
            &["begin", "end"],
            "begin endx xend end1 _end end",
            "0-5+0 26-29-0 ",
        ),
        (&["begin", "end"], "(begin)end.end", "1-6+0 7-10-0 11-14-0 "),
        (&["#if", "#end"], "a#if#ifb#end#endif", "1-4+0 8-12-0 "),
        (
            &["\u{e9}", "\u{e8}"],
            "\u{e9}\u{e9} \u{e9}-\u{e8}",
            "3-4+0 5-6-0 ",
        ),
    ];
    for (texts, line, marks) in cases {
        assert_eq!(rt;
            marks_of(rt.alloc(), texts, line, 0, 4_000_000)?.as_str(),
            marks,
            "{line}"
        );
    }
    Ok(())
}

#[test]
fn only_tokens_of_type_other_have_marks(rt: HostRuntime) -> Result<(), Fail> {
    let cases: [(u32, u32, &str, &str); 6] = [
        (2, 6, "()()()()", "2-3+0 3-4-0 4-5+0 5-6-0 "),
        (0, 8, "()()", "0-1+0 1-2-0 2-3+0 3-4-0 "),
        (8, 8, "()()", ""),
        (3, 9, "<<<<<<<<<<<<", "3-5+1 5-7+1 7-9+1 "),
        (3, 8, "<<<<<<<<<<<<", "3-5+1 5-7+1 "),
        (1, 3, "begin end", ""),
    ];
    for (string, other, line, marks) in cases {
        assert_eq!(rt;
            marks_of(
                rt.alloc(),
                &["(", ")", "<<", ">>", "begin", "end"],
                line,
                string,
                other
            )?
            .as_str(),
            marks,
            "{line} {string} {other}"
        );
    }
    Ok(())
}

#[test]
fn a_long_line_has_no_marks(rt: HostRuntime) -> Result<(), Fail> {
    let brackets = Brackets::usual(rt.alloc())?;
    let text = Text::from_bytes(rt.alloc(), b"{[(")?;
    assert!(rt; text.lines() == 1);
    let types = [TypeRun {
        to: 3,
        kind: StdType::Other,
    }];
    let marks = brackets.marks(rt.alloc(), text.line(0), &types, 4)?;
    assert_eq!(rt; shown(rt.alloc(), &marks)?.as_str(), "0-1+0 1-2+1 2-3+2 ");
    assert_eq!(rt; marks.length(), 3);
    let none = brackets.marks(rt.alloc(), text.line(0), &types, 3)?;
    assert!(rt; none.marks().is_empty());
    assert_eq!(rt; none.length(), 3);
    Ok(())
}

/// So many pairs, of which each has an opener or a closer of its own.
fn many(alloc: Global, count: u32, openers: bool) -> Result<PairTexts, AllocError> {
    let mut pairs = PairTexts::new(alloc);
    for n in 0..count {
        let own = format!(in alloc; "#{n}")?;
        let own = Name::of(alloc, own.as_str())?;
        let other = Name::of(alloc, "$")?;
        let pair = if openers {
            PairText {
                opener: own,
                closer: other,
            }
        } else {
            PairText {
                opener: other,
                closer: own,
            }
        };
        pairs.push(pair)?;
    }
    Ok(pairs)
}

#[test]
fn at_most_64_texts_open_or_close(rt: HostRuntime) -> Result<(), Fail> {
    for openers in [true, false] {
        assert!(rt; Brackets::new(rt.alloc(), &many(rt.alloc(), 64, openers)?).is_ok());
        for count in [65u32, 200] {
            match Brackets::new(rt.alloc(), &many(rt.alloc(), count, openers)?) {
                Err(BracketRefusal::TooManyKinds { count: told }) => {
                    assert_eq!(rt; told, u64::from(count));
                }
                _ => panic!(&rt; "another answer"),
            }
        }
    }
    Ok(())
}

/// A text of so many characters of two bytes.
fn long(alloc: Global, chars: usize) -> Result<String, AllocError> {
    let mut text = String::new(alloc);
    for _ in 0..chars {
        text.push('\u{e9}')?;
    }
    Ok(text)
}

#[test]
fn a_text_has_at_most_32_characters(rt: HostRuntime) -> Result<(), Fail> {
    let fits = long(rt.alloc(), 32)?;
    let longer = long(rt.alloc(), 33)?;
    let pairs = pairs_of(rt.alloc(), &["(", fits.as_str()])?;
    assert!(rt; Brackets::new(rt.alloc(), &pairs).is_ok());
    let pairs = pairs_of(
        rt.alloc(),
        &[
            "",
            longer.as_str(),
            "(",
            ")",
            longer.as_str(),
            fits.as_str(),
            longer.as_str(),
            "x",
        ],
    )?;
    match Brackets::new(rt.alloc(), &pairs) {
        Err(BracketRefusal::TextLength { index, count }) => {
            assert_eq!(rt; index, 1);
            assert_eq!(rt; count, 33);
        }
        _ => panic!(&rt; "another answer"),
    }
    Ok(())
}
