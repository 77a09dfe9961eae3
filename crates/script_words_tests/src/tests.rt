use scope_names::Scopes;
use script_words::{
    Answer, BracketRow, Command, CommandRefusal, GuideRow, GuideRows, Made, MarkAt, PairRow,
    PairRows, Question, Refusal, Reply, Rows, Twin, TypedToken, TypedTokens,
};
use std::alloc::{AllocError, Global};
use std::test::Fail;
use text_pos::{Bytes, Chars, Pos, Span};

/// What a line means, in words: a question or a turn and its numbers, the edits with their places and texts,
/// or why it is refused.
fn meaning(alloc: Global, line: &[u8]) -> Result<String, AllocError> {
    match Command::read(alloc, line) {
        Ok(Command::Edit(edits)) => {
            let mut text = String::from_str(alloc, "edit")?;
            for edit in edits.as_slice() {
                let span = edit.span();
                let shown = format!(in alloc;
                    " {}:{}-{}:{}={}",
                    span.from.line,
                    span.from.col,
                    span.to.line,
                    span.to.col,
                    edit.text()
                )?;
                text.push_str(shown.as_str())?;
            }
            Ok(text)
        }
        Ok(Command::Turn(lines)) => format!(in alloc; "turn {lines}"),
        Ok(Command::Ask(question)) => asked(alloc, question),
        Err(CommandRefusal::Json) => String::from_str(alloc, "json"),
        Err(CommandRefusal::Command) => String::from_str(alloc, "command"),
        Err(CommandRefusal::Memory(error)) => Err(error),
    }
}

/// A question in words, with its numbers.
fn asked(alloc: Global, question: Question) -> Result<String, AllocError> {
    match question {
        Question::Brackets { from, to } => format!(in alloc; "brackets {from} {to}"),
        Question::Pairs { from, to } => format!(in alloc; "pairs {from} {to}"),
        Question::Guides { from, to } => format!(in alloc; "guides {from} {to}"),
        Question::Tokens { line } => format!(in alloc; "tokens {line}"),
        Question::Line { line } => format!(in alloc; "line {line}"),
        Question::Match { at } => format!(in alloc; "match {}:{}", at.line, at.col),
        Question::Around { at } => format!(in alloc; "around {}:{}", at.line, at.col),
        Question::Jump { at } => format!(in alloc; "jump {}:{}", at.line, at.col),
        Question::Level { at } => format!(in alloc; "level {}:{}", at.line, at.col),
    }
}

/// Lines of a script, and what each means.
const LINES: [(&[u8], &str); 70] = [
    (b"{\"pairs\":[1,2]}", "pairs 1 2"),
    (b"{\"guides\":[2,1]}", "guides 2 1"),
    (b"{\"match\":[1,4294967295]}", "match 1:4294967295"),
    (b"{\"around\":[1,2]}", "around 1:2"),
    (b"{\"jump\":[0,0]}", "jump 0:0"),
    (b"{\"level\":[3,4]}", "level 3:4"),
    (b"{\"level\":[0,-1]}", "command"),
    (b"{\"match\":1}", "command"),
    (b"{\"jump\":[1,2,3]}", "command"),
    (b"{\"tokens\":0}", "tokens 0"),
    (b"{\"tokens\":4294967295}", "tokens 4294967295"),
    (b"{\"tokens\":4294967296}", "command"),
    (b"{\"tokens\":-1}", "command"),
    (b"{\"tokens\":[0]}", "command"),
    (b"{\"tokens\":[0,0]}", "command"),
    (b"{\"tokens\":null}", "command"),
    (b"{\"token\":0}", "command"),
    (b"{\"brackets\":[0,0]}", "brackets 0 0"),
    (b"{\"brackets\":[5,2]}", "brackets 5 2"),
    (
        b"{\"brackets\":[4294967295,4294967295]}",
        "brackets 4294967295 4294967295",
    ),
    (b"{\"brackets\":[4294967296,0]}", "command"),
    (b"{\"brackets\":[0,4294967296]}", "command"),
    (b"{\"brackets\":[]}", "command"),
    (b"{\"brackets\":[0]}", "command"),
    (b"{\"brackets\":[0,1,2]}", "command"),
    (b"{\"brackets\":0}", "command"),
    (b"{\"line\":0}", "line 0"),
    (b"{\"line\":4294967295}", "line 4294967295"),
    (b"{\"line\":4294967296}", "command"),
    (b"{\"line\":18446744073709551616}", "command"),
    (b"{\"line\":-1}", "command"),
    (b"{\"line\":-0}", "command"),
    (b"{\"line\":1.0}", "command"),
    (b"{\"line\":1e0}", "command"),
    (b"{\"line\":1e999}", "json"),
    (b"{\"line\":01}", "json"),
    (b"{\"line\":\"0\"}", "command"),
    (b"{\"line\":[0]}", "command"),
    (b"{\"line\":null}", "command"),
    (b"{\"turn\":0}", "command"),
    (b"{\"turn\":1}", "turn 1"),
    (b"{\"turn\":262144}", "turn 262144"),
    (b"{\"turn\":262145}", "command"),
    (b"{\"edit\":[]}", "edit"),
    (b"{\"edit\":[[1,2,3,4,\"x\"]]}", "edit 1:2-3:4=x"),
    (
        b"{\"edit\":[[0,0,0,0,\"\"],[7,4294967295,4294967295,9,\"\\u00e9\\n\\ud83d\\ude00\"]]}",
        "edit 0:0-0:0= 7:4294967295-4294967295:9=\u{e9}\n\u{1f600}",
    ),
    (b"{\"edit\":[[1,2,3,4]]}", "command"),
    (b"{\"edit\":[[1,2,3,4,\"x\",5]]}", "command"),
    (b"{\"edit\":[[1,2,3,\"x\",4]]}", "command"),
    (b"{\"edit\":[[1,2,3,4,5]]}", "command"),
    (b"{\"edit\":[[1,2,3,4294967296,\"x\"]]}", "command"),
    (b"{\"edit\":[[1,2,3,4,\"x\"],[1,2,3,4]]}", "command"),
    (b"{\"edit\":[[1,2,3,4,\"\\ud800\"]]}", "json"),
    (b"{\"edit\":[7]}", "command"),
    (b"{\"edit\":[1,2,3,4,\"x\"]}", "command"),
    (b"{\"edit\":{}}", "command"),
    (b"", "json"),
    (b"x", "json"),
    (b"[]", "command"),
    (b"{}", "command"),
    (b"{\"place\":0}", "command"),
    (b"{\"Line\":0}", "command"),
    (b"{\"line\":0,\"turn\":1}", "command"),
    (b"{\"line\":0,\"line\":1}", "line 1"),
    (b"{\"line\":1,\"line\":null}", "command"),
    (b"{\"l\\u0069ne\":3}", "line 3"),
    (b" {\"line\" : 3}\r", "line 3"),
    (b"{\"line\":3} x", "json"),
    (b"{\"line\":3}\xff", "json"),
    (b"\xef\xbb\xbf{\"line\":3}", "json"),
];

#[test]
fn lines_are_read_as_commands(rt: HostRuntime) -> Result<(), Fail> {
    for (line, want) in LINES {
        assert_eq!(rt; meaning(rt.alloc(), line)?.as_str(), want, "at {line:?}");
    }
    Ok(())
}

/// Lists in lists, so many deep.
fn nested(alloc: Global, depth: u32) -> Result<Bytes, AllocError> {
    let mut line = Bytes::new(alloc);
    for _ in 0..depth {
        line.push(b'[')?;
    }
    for _ in 0..depth {
        line.push(b']')?;
    }
    Ok(line)
}

#[test]
fn lines_nest_up_to_127(rt: HostRuntime) -> Result<(), Fail> {
    for (depth, want) in [(127, "command"), (128, "json")] {
        let line = nested(rt.alloc(), depth)?;
        assert_eq!(rt;
            meaning(rt.alloc(), line.as_slice())?.as_str(),
            want,
            "at {depth}"
        );
    }
    Ok(())
}

/// Two brackets, one with the largest numbers.
fn two_rows(alloc: Global) -> Result<Rows, AllocError> {
    let mut rows = Rows::new(alloc);
    rows.push(BracketRow {
        at: MarkAt {
            line: 0,
            from: 1,
            to: 2,
        },
        level: 3,
        own: 4,
        colour: 5,
    })?;
    rows.push(BracketRow {
        at: MarkAt {
            line: 4294967295,
            from: 8,
            to: 4294967295,
        },
        level: 10,
        own: 0,
        colour: 6,
    })?;
    Ok(rows)
}

/// Two brackets of two characters and of one, on these lines.
fn twin(first: u32, second: u32) -> Twin {
    Twin {
        first: Span {
            from: Pos {
                line: first,
                col: 5,
            },
            to: Pos {
                line: first,
                col: 7,
            },
        },
        second: Span {
            from: Pos {
                line: second,
                col: 8,
            },
            to: Pos {
                line: second,
                col: 9,
            },
        },
    }
}

fn mark(line: u32, from: u32, to: u32) -> MarkAt {
    MarkAt { line, from, to }
}

/// A closed pair, and one without closer.
fn two_pairs(alloc: Global) -> Result<PairRows, AllocError> {
    let mut pairs = PairRows::new(alloc);
    pairs.push(PairRow {
        opener: mark(1, 2, 3),
        closer: Some(mark(4, 5, 6)),
        level: 7,
        own: 8,
    })?;
    pairs.push(PairRow {
        opener: mark(9, 0, 1),
        closer: None,
        level: 2,
        own: 3,
    })?;
    Ok(pairs)
}

fn two_guides(alloc: Global) -> Result<GuideRows, AllocError> {
    let mut guides = GuideRows::new(alloc);
    guides.push(GuideRow {
        line: 1,
        column: 2,
        level: 3,
    })?;
    guides.push(GuideRow {
        line: 4,
        column: 5,
        level: 6,
    })?;
    Ok(guides)
}

/// Whether a reply is written so.
fn is_written(alloc: Global, reply: &Reply, want: &str) -> Result<bool, AllocError> {
    let line = reply.write(alloc)?;
    Ok(line.as_slice() == want.as_bytes())
}

#[test]
fn replies_to_commands_are_written_letter_by_letter(rt: HostRuntime) -> Result<(), Fail> {
    let alloc = rt.alloc();
    let opened = Reply::Opened {
        lines: 1,
        unread: 0,
    };
    assert!(rt; is_written(alloc, &opened, "{\"opened\":1,\"unread\":0}\n")?);
    let opened = Reply::Opened {
        lines: 262144,
        unread: 4294967295,
    };
    assert!(rt;
        is_written(
            alloc,
            &opened,
            "{\"opened\":262144,\"unread\":4294967295}\n"
        )?
    );
    assert!(rt; is_written(alloc, &Reply::Edited(1), "{\"edited\":1}\n")?);
    assert!(rt; is_written(alloc, &Reply::Edited(262144), "{\"edited\":262144}\n")?);
    assert!(rt; is_written(alloc, &Reply::Turned, "{\"turned\":true}\n")?);
    let made = Reply::Made(Made {
        lines: 100_025,
        rows: 61,
        bad: 0,
        deepest: 301,
    });
    assert!(rt; is_written(alloc, &made, "{\"made\":[100025,61,0,301]}\n")?);
    Ok(())
}

#[test]
fn refusals_are_written_as_their_words(rt: HostRuntime) -> Result<(), Fail> {
    let alloc = rt.alloc();
    for (why, want) in [
        (Refusal::Long, "{\"refused\":\"long\"}\n"),
        (Refusal::Json, "{\"refused\":\"json\"}\n"),
        (Refusal::Command, "{\"refused\":\"command\"}\n"),
        (Refusal::Range, "{\"refused\":\"range\"}\n"),
        (Refusal::Order, "{\"refused\":\"order\"}\n"),
        (Refusal::Chars, "{\"refused\":\"chars\"}\n"),
        (Refusal::Lines, "{\"refused\":\"lines\"}\n"),
        (Refusal::Line, "{\"refused\":\"line\"}\n"),
        (Refusal::Place, "{\"refused\":\"place\"}\n"),
    ] {
        assert!(rt; is_written(alloc, &Reply::Refused(why), want)?, "{want}");
    }
    Ok(())
}

/// Whether an answer is written so.
fn is_answered(alloc: Global, answer: Answer, want: &str) -> Result<bool, AllocError> {
    is_written(alloc, &Reply::Answered(answer), want)
}

#[test]
fn rows_are_written_letter_by_letter(rt: HostRuntime) -> Result<(), Fail> {
    let alloc = rt.alloc();
    let none = Answer::Brackets(Rows::new(alloc));
    assert!(rt; is_answered(alloc, none, "{\"brackets\":[]}\n")?);
    let two = Answer::Brackets(two_rows(alloc)?);
    assert!(rt;
        is_answered(
            alloc,
            two,
            "{\"brackets\":[[0,1,2,3,4,5],[4294967295,8,4294967295,10,0,6]]}\n"
        )?
    );
    let pairs = Answer::Pairs(two_pairs(alloc)?);
    assert!(rt;
        is_answered(
            alloc,
            pairs,
            "{\"pairs\":[[[1,2,3],[4,5,6],7,8],[[9,0,1],null,2,3]]}\n"
        )?
    );
    let guides = Answer::Guides(two_guides(alloc)?);
    assert!(rt; is_answered(alloc, guides, "{\"guides\":[[1,2,3],[4,5,6]]}\n")?);
    Ok(())
}

/// A token of these scopes.
fn token(from: u32, to: u32, scopes: Scopes, kind: u32) -> TypedToken {
    TypedToken {
        from,
        to,
        scopes,
        kind,
    }
}

/// Scopes whose names were pushed at once, and one by one.
fn some_scopes(alloc: Global) -> Result<Scopes, AllocError> {
    let outer = Scopes::empty().push(alloc, "s a.b")?;
    outer.push(alloc, "c")
}

/// Scopes with names that JSON writes with signs before characters.
fn odd_scopes(alloc: Global) -> Result<Scopes, AllocError> {
    let outer = Scopes::empty().push(alloc, "\"\\")?;
    outer.push(alloc, "\t\u{1f}/\u{e9}\u{1f600}")
}

#[test]
fn tokens_are_written_letter_by_letter(rt: HostRuntime) -> Result<(), Fail> {
    let alloc = rt.alloc();
    let none = Answer::Tokens(TypedTokens::new(alloc));
    assert!(rt; is_answered(alloc, none, "{\"tokens\":[]}\n")?);
    let mut plain = TypedTokens::new(alloc);
    plain.push(token(0, 4294967295, Scopes::empty(), 0))?;
    assert!(rt;
        is_answered(
            alloc,
            Answer::Tokens(plain),
            "{\"tokens\":[[0,4294967295,[],0]]}\n"
        )?
    );
    let mut two = TypedTokens::new(alloc);
    two.push(token(0, 2, some_scopes(alloc)?, 1))?;
    two.push(token(2, 7, odd_scopes(alloc)?, 3))?;
    assert!(rt;
        is_answered(
            alloc,
            Answer::Tokens(two),
            "{\"tokens\":[[0,2,[\"s\",\"a.b\",\"c\"],1],[2,7,[\"\\\"\\\\\",\"\\t\\u001f/\u{e9}\u{1f600}\"],3]]}\n"
        )?
    );
    Ok(())
}

#[test]
fn characters_are_written_letter_by_letter(rt: HostRuntime) -> Result<(), Fail> {
    let alloc = rt.alloc();
    let none = Chars::new(alloc);
    assert!(rt; is_answered(alloc, Answer::Line(none), "{\"line\":\"\"}\n")?);
    let plain = Chars::of(
        alloc,
        &['a', '/', '\u{7f}', '\u{e9}', '\u{feff}', '\u{1f600}'],
    )?;
    assert!(rt;
        is_answered(
            alloc,
            Answer::Line(plain),
            "{\"line\":\"a/\u{7f}\u{e9}\u{feff}\u{1f600}\"}\n"
        )?
    );
    let escaped = Chars::of(
        alloc,
        &['"', '\\', '\t', '\u{8}', '\u{c}', '\r', '\u{0}', '\u{1f}'],
    )?;
    assert!(rt;
        is_answered(
            alloc,
            Answer::Line(escaped),
            "{\"line\":\"\\\"\\\\\\t\\b\\f\\r\\u0000\\u001f\"}\n"
        )?
    );
    Ok(())
}

#[test]
fn places_are_written_letter_by_letter(rt: HostRuntime) -> Result<(), Fail> {
    let alloc = rt.alloc();
    assert!(rt; is_answered(alloc, Answer::Match(None), "{\"match\":null}\n")?);
    let both = Answer::Match(Some(twin(3, 4)));
    assert!(rt; is_answered(alloc, both, "{\"match\":[[3,5,7],[4,8,9]]}\n")?);
    let around = Answer::Around(Some(twin(0, 4294967295)));
    assert!(rt; is_answered(alloc, around, "{\"around\":[[0,5,7],[4294967295,8,9]]}\n")?);
    let place = Answer::Jump(Some(Pos { line: 7, col: 0 }));
    assert!(rt; is_answered(alloc, place, "{\"jump\":[7,0]}\n")?);
    assert!(rt; is_answered(alloc, Answer::Jump(None), "{\"jump\":null}\n")?);
    let level = Answer::Level(4294967295);
    assert!(rt; is_answered(alloc, level, "{\"level\":4294967295}\n")?);
    Ok(())
}
