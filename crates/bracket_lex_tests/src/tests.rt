//! Tests show that texts have the right rows, and that lists of lines keep their marks.

use bracket_lex::{Brackets, LineMark, LineMarks, MarkLines, Paired, Role, Row};
use line_text::Text;
use scope_defs::{StdType, TypeRun};
use std::alloc::{AllocError, Global};
use std::test::Fail;
use text_pos::{Kinds, Pos};

/// Each row as its line, columns, level, kind level and colour, and then its partner and inner end.
fn shown(alloc: Global, rows: &[Row]) -> Result<String, AllocError> {
    let mut text = String::new(alloc);
    for row in rows {
        let mark = row.mark;
        let place = format!(in alloc;
            "[{},{},{},{},{},{}]",
            mark.at.line, mark.at.col, mark.to, row.level, row.own, row.colour
        )?;
        text.push_str(place.as_str())?;
        match row.partner {
            Some(partner) => {
                let number = format!(in alloc; "{partner}")?;
                text.push_str(number.as_str())?;
            }
            None => text.push('-')?,
        }
        let inner = format!(in alloc; " {}:{} ", row.inner.line, row.inner.col)?;
        text.push_str(inner.as_str())?;
    }
    Ok(text)
}

#[test]
fn texts_have_rows(rt: HostRuntime) -> Result<(), Fail> {
    let cases: [(&str, u32, u32, &str); 8] = [
        ("", 200, 20000, ""),
        (
            "([)]",
            200,
            20000,
            "[0,0,1,0,0,0]2 0:2 [0,1,2,1,0,6]- 0:2 [0,2,3,0,0,0]0 0:2 [0,3,4,0,0,6]- 0:3 ",
        ),
        ("\na ) b", 200, 20000, "[1,2,3,0,0,6]- 1:2 "),
        (
            "((()))",
            2,
            20000,
            "[0,0,1,0,0,0]3 0:4 [0,1,2,1,1,1]2 0:3 [0,3,4,1,1,1]1 0:3 [0,4,5,0,0,0]0 0:4 [0,5,6,0,0,6]- 0:5 ",
        ),
        ("()\n(", 200, 2, "[1,0,1,0,0,6]- 1:1 "),
        (
            "(\r\n)",
            200,
            20000,
            "[0,0,1,0,0,0]1 1:0 [1,0,1,0,0,0]0 1:0 ",
        ),
        ("\u{e9}{x", 200, 20000, "[0,1,2,0,0,6]- 0:3 "),
        (
            "([{[",
            200,
            20000,
            "[0,0,1,0,0,6]- 0:4 [0,1,2,1,0,6]- 0:4 [0,2,3,2,0,6]- 0:4 [0,3,4,3,1,6]- 0:4 ",
        ),
    ];
    let brackets = Brackets::usual(rt.alloc())?;
    for (file, limit, long, rows) in cases {
        let text = Text::from_bytes(rt.alloc(), file.as_bytes())?;
        let lines = MarkLines::of_text(rt.alloc(), &brackets, &text, long)?;
        let paired = Paired::of(rt.alloc(), &lines, lines.end(), limit)?;
        assert_eq!(rt;
            shown(rt.alloc(), paired.rows())?.as_str(),
            rows,
            "in {file}"
        );
    }
    Ok(())
}

#[test]
fn lines_keep_their_marks(rt: HostRuntime) -> Result<(), Fail> {
    let brackets = Brackets::usual(rt.alloc())?;
    let text = Text::from_bytes(rt.alloc(), b"a(]")?;
    assert!(rt; text.lines() == 1);
    let types = [TypeRun {
        to: 3,
        kind: StdType::Other,
    }];
    let found = brackets.marks(rt.alloc(), text.line(0), &types, 20000)?;
    let marks = [
        LineMark {
            from: 1,
            to: 2,
            role: Role::Opener(2),
        },
        LineMark {
            from: 2,
            to: 3,
            role: Role::Closer(Kinds::one(1)),
        },
    ];
    assert_eq!(rt; found.marks(), marks.as_slice());
    assert_eq!(rt; found.length(), 3);
    let mut lines = MarkLines::new(rt.alloc());
    lines.push(LineMarks::none(rt.alloc(), 7)?)?;
    lines.push(LineMarks::none(rt.alloc(), 5)?)?;
    assert_eq!(rt; lines.end(), Pos { line: 1, col: 5 });
    lines.put(1, found.copy(rt.alloc())?)?;
    assert_eq!(rt; lines.end(), Pos { line: 1, col: 3 });
    assert!(rt; lines.len() == 2);
    assert_eq!(rt; lines.get(0).marks().len(), 0);
    assert_eq!(rt; lines.get(1).marks(), marks.as_slice());
    let mut others = MarkLines::new(rt.alloc());
    others.push_run(&lines, 1, 1)?;
    let copied = others.copy(rt.alloc())?;
    assert!(rt; copied.len() == 1);
    for line in copied.iter() {
        assert_eq!(rt; line.get().length(), 3);
    }
    Ok(())
}
