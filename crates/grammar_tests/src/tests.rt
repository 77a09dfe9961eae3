//! Tests show which rules a grammar's file has, and where a wrong one is refused.

use grammar_json::{Entry, GrammarRefusal, loosen, read_grammar};
use std::alloc::Global;
use std::test::Fail;
use text_pos::Bytes;

/// What a file is refused for: the pointer of a wrong value, or a word.
fn refused(alloc: Global, file: &str) -> Result<Bytes, Fail> {
    match read_grammar(alloc, file.as_bytes()) {
        Ok(grammar) => {
            drop(grammar);
            word(alloc, b"read")
        }
        Err(refusal) => refusal_word(alloc, refusal),
    }
}

fn refusal_word(alloc: Global, refusal: GrammarRefusal) -> Result<Bytes, Fail> {
    match refusal {
        GrammarRefusal::Shape { path } => Ok(path),
        GrammarRefusal::Json => word(alloc, b"json"),
        GrammarRefusal::TooManyRules { .. } => word(alloc, b"rules"),
        GrammarRefusal::Memory => word(alloc, b"memory"),
    }
}

fn word(alloc: Global, bytes: &[u8]) -> Result<Bytes, Fail> {
    Ok(Bytes::of(alloc, bytes)?)
}

#[test]
fn each_wrong_value_has_its_pointer(rt: HostRuntime) -> Result<(), Fail> {
    for (file, path) in [
        (r#"{"scopeName":"s"}"#, "read"),
        (r#"{"scopeName":"s",}"#, "read"),
        (
            "// a grammar\n{\"scopeName\":\"s\"/* no patterns */}",
            "read",
        ),
        ("\u{FEFF}{\"scopeName\":\"s\"}", "read"),
        (r#"{"scopeName":"s","scopeName":"t"}"#, "read"),
        (r#"{"scopeName":5,"scopeName":"t"}"#, "read"),
        (
            r#"{"scopeName":"s","patterns":null,"repository":null,"injections":null}"#,
            "read",
        ),
        (
            r##"{"scopeName":"s","patterns":[{"include":"#a","match":5}]}"##,
            "read",
        ),
        (
            r#"{"scopeName":"s","patterns":[{"captures":{"01":5,"x":5,"100000":5}}]}"#,
            "read",
        ),
        (
            r#"{"scopeName":"s","patterns":[{"captures":{"0":null}}]}"#,
            "read",
        ),
        (
            r#"{"scopeName":"s","patterns":[{"applyEndPatternLast":1.5}]}"#,
            "read",
        ),
        (r#"{"scopeName":"s","fileTypes":5,"name":[]}"#, "read"),
        ("", "json"),
        ("{", "json"),
        (r#"{"scopeName":"s""#, "json"),
        (r#"{"scopeName":"s"} x"#, "json"),
        (r#"{"scopeName":"s","n":1e999}"#, "json"),
        (r#"{"scopeName":"s","patterns":[,,]}"#, "json"),
        ("[]", ""),
        ("5", ""),
        ("{}", "/scopeName"),
        (r#"{"scopeName":""}"#, "/scopeName"),
        (r#"{"scopeName":5}"#, "/scopeName"),
        (r#"{"scopeName":null,"patterns":5}"#, "/scopeName"),
        (r#"{"scopeName":"s","patterns":{}}"#, "/patterns"),
        (r#"{"scopeName":"s","patterns":"x"}"#, "/patterns"),
        (r#"{"scopeName":"s","patterns":[{},5]}"#, "/patterns/1"),
        (r#"{"scopeName":"s","patterns":[null]}"#, "/patterns/0"),
        (
            r#"{"scopeName":"s","patterns":[{"name":5}]}"#,
            "/patterns/0/name",
        ),
        (
            r#"{"scopeName":"s","patterns":[{"contentName":[]}]}"#,
            "/patterns/0/contentName",
        ),
        (
            r#"{"scopeName":"s","patterns":[{"match":{}}]}"#,
            "/patterns/0/match",
        ),
        (
            r#"{"scopeName":"s","patterns":[{"begin":true}]}"#,
            "/patterns/0/begin",
        ),
        (
            r#"{"scopeName":"s","patterns":[{"end":1}]}"#,
            "/patterns/0/end",
        ),
        (
            r#"{"scopeName":"s","patterns":[{"while":1}]}"#,
            "/patterns/0/while",
        ),
        (
            r#"{"scopeName":"s","patterns":[{"include":5}]}"#,
            "/patterns/0/include",
        ),
        (
            r#"{"scopeName":"s","patterns":[{"captures":[]}]}"#,
            "/patterns/0/captures",
        ),
        (
            r#"{"scopeName":"s","patterns":[{"beginCaptures":5}]}"#,
            "/patterns/0/beginCaptures",
        ),
        (
            r#"{"scopeName":"s","patterns":[{"endCaptures":5}]}"#,
            "/patterns/0/endCaptures",
        ),
        (
            r#"{"scopeName":"s","patterns":[{"whileCaptures":5}]}"#,
            "/patterns/0/whileCaptures",
        ),
        (
            r#"{"scopeName":"s","patterns":[{"captures":{"1":5}}]}"#,
            "/patterns/0/captures/1",
        ),
        (
            r#"{"scopeName":"s","patterns":[{"captures":{"10":5,"2":6}}]}"#,
            "/patterns/0/captures/2",
        ),
        (
            r#"{"scopeName":"s","patterns":[{"captures":{"1":{"name":5}}}]}"#,
            "/patterns/0/captures/1/name",
        ),
        (
            r#"{"scopeName":"s","patterns":[{"captures":{"1":{"patterns":[5]}}}]}"#,
            "/patterns/0/captures/1/patterns/0",
        ),
        (
            r#"{"scopeName":"s","patterns":[{"applyEndPatternLast":"1"}]}"#,
            "/patterns/0/applyEndPatternLast",
        ),
        (
            r#"{"scopeName":"s","patterns":[{"patterns":[{"patterns":5}]}]}"#,
            "/patterns/0/patterns/0/patterns",
        ),
        (
            r#"{"scopeName":"s","patterns":[{"patterns":5,"name":5}]}"#,
            "/patterns/0/name",
        ),
        (r#"{"scopeName":"s","repository":[]}"#, "/repository"),
        (
            r#"{"scopeName":"s","repository":{"b":5,"a/~":5}}"#,
            "/repository/a~1~0",
        ),
        (
            r#"{"scopeName":"s","repository":{"a":{"include":"x","match":5}}}"#,
            "/repository/a/match",
        ),
        (r#"{"scopeName":"s","injections":5}"#, "/injections"),
        (
            r#"{"scopeName":"s","injections":{"L:s":[]}}"#,
            "/injections/L:s",
        ),
    ] {
        assert_eq!(rt;
            refused(rt.alloc(), file)?.as_slice(),
            path.as_bytes(),
            "{file}"
        );
    }
    Ok(())
}

#[test]
fn a_grammar_is_its_rules(rt: HostRuntime) -> Result<(), Fail> {
    let file =
        r##"{"scopeName":"source.tiny","patterns":[{"include":"#all"},{"match":"a","name":""}],
        "repository":{"b":{"begin":"","end":""},"a":{"captures":{"12":{"name":"n"},"3":{}},"applyEndPatternLast":1}}}"##;
    let Ok(grammar) = read_grammar(rt.alloc(), file.as_bytes()) else {
        panic!(&rt; "refused");
    };
    assert_eq!(rt; grammar.scope.text(), "source.tiny");
    match grammar.patterns.as_slice() {
        [Entry::Include(name), Entry::Rule(rule)] => {
            assert_eq!(rt; name.text(), "#all");
            assert!(rt; rule.name.is_none());
            assert!(rt; rule.single.is_some());
            assert!(rt; rule.patterns.is_none());
        }
        _ => panic!(&rt; "other entries"),
    }
    match grammar.repository.as_slice() {
        [first, second] => {
            assert_eq!(rt; first.key.text(), "a");
            assert!(rt; first.rule.finish_last);
            assert!(rt; second.rule.begin.is_some());
            assert!(rt; second.rule.finish.is_none());
            match &first.rule.captures {
                Some(captures) => match captures.as_slice() {
                    [three, twelve] => {
                        assert_eq!(rt; three.number, 3);
                        assert_eq!(rt; twelve.number, 12);
                        assert!(rt; twelve.name.is_some());
                    }
                    _ => panic!(&rt; "other captures"),
                },
                None => panic!(&rt; "no captures"),
            }
        }
        _ => panic!(&rt; "other names"),
    }
    assert!(rt; grammar.injections.as_slice().is_empty());
    Ok(())
}

#[test]
fn more_than_65536_rules_are_too_many(rt: HostRuntime) -> Result<(), Fail> {
    for (rules, fits) in [(65_535, true), (65_536, false)] {
        let mut file = String::from_str(rt.alloc(), r#"{"scopeName":"s","patterns":["#)?;
        for _ in 0..rules {
            file.push_str("{},")?;
        }
        file.push_str("]}")?;
        match read_grammar(rt.alloc(), file.as_bytes()) {
            Ok(_) => assert!(rt; fits),
            Err(GrammarRefusal::TooManyRules { count }) => assert!(rt; !fits && count == 65_537),
            Err(_) => panic!(&rt; "another refusal"),
        }
    }
    Ok(())
}

#[test]
fn comments_and_trailing_commas_are_spaces(rt: HostRuntime) -> Result<(), Fail> {
    assert_eq!(rt;
        loosen(rt.alloc(), b"[1,/*\n*/ ] //")?.as_slice(),
        b"[1   \n   ]   ".as_slice()
    );
    Ok(())
}

#[test]
fn a_file_cut_anywhere_is_read_or_refused(rt: HostRuntime) -> Result<(), Fail> {
    let file =
        r##"{"scopeName":"s","patterns":[{"begin":"\"","end":"x","captures":{"1":{"patterns":[]}}}],"repository":{}}"##;
    for to in 0..file.len() {
        if let Some(front) = file.as_bytes().get(..to) {
            assert!(rt; read_grammar(rt.alloc(), front).is_err());
        }
    }
    Ok(())
}
