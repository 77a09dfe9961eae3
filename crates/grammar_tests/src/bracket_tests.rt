//! Tests show which pairs a bracket file has, and where a wrong one is refused.

use grammar_json::{
    Capture, Captures, Entries, Entry, PairRefusal, PairText, PairTexts, read_brackets,
    read_grammar,
};
use std::alloc::{AllocError, Global};
use std::test::Fail;
use text_pos::{Bytes, Name};

/// The texts of pairs, one after the other, each with a comma behind it.
fn shown(alloc: Global, pairs: &[PairText]) -> Result<Bytes, AllocError> {
    let mut texts = Bytes::new(alloc);
    for pair in pairs {
        texts.append(pair.opener.text().as_bytes())?;
        texts.push(b',')?;
        texts.append(pair.closer.text().as_bytes())?;
        texts.push(b',')?;
    }
    Ok(texts)
}

/// What a file says: the texts of its pairs, or what it is refused for: the pointer of a wrong value, or `json`.
fn told(alloc: Global, file: &[u8]) -> Result<Bytes, Fail> {
    match read_brackets(alloc, file) {
        Ok(pairs) => Ok(shown(alloc, pairs.as_slice())?),
        Err(PairRefusal::Shape { path }) => Ok(path),
        Err(PairRefusal::Json) => Ok(Bytes::of(alloc, b"json")?),
        Err(PairRefusal::Memory) => Ok(Bytes::of(alloc, b"memory")?),
    }
}

#[test]
fn a_file_is_its_pairs(rt: HostRuntime) -> Result<(), Fail> {
    for (file, pairs) in [
        ("{}", ""),
        (r#"{"brackets":[]}"#, ""),
        (r#"{"brackets":null}"#, ""),
        (r#"{"brackets":[["(",")"]]}"#, "(,),"),
        (
            r#"{"brackets":[["{","}"],["begin","end"]]}"#,
            "{,},begin,end,",
        ),
        (r#"{"brackets":[["","("],["(","("]]}"#, ",(,(,(,"),
        (r#"{"brackets":[["<",">"],["(",")"]]}"#, "(,),"),
        (
            r#"{"brackets":[["<","/>"],["</",">"],[">","<"]]}"#,
            "<,/>,</,>,>,<,",
        ),
        (
            r#"{"colorizedBracketPairs":[["<",">"]],"brackets":[["(",")"]]}"#,
            "<,>,",
        ),
        (
            r#"{"brackets":[["(",")"]],"colorizedBracketPairs":null}"#,
            "(,),",
        ),
        (r#"{"brackets":5,"colorizedBracketPairs":[]}"#, ""),
        (r#"{"brackets":5,"brackets":[["(",")"]]}"#, "(,),"),
        (r#"{"comments":{"lineComment":5},"autoClosingPairs":5}"#, ""),
        (
            "{\n  // the usual three\n  \"brackets\": [[\"{\",\"}\"],[\"[\",\"]\"],[\"(\",\")\"],],\n  \"comments\": {\"lineComment\":\"//\"},\n}",
            "{,},[,],(,),",
        ),
        ("\u{FEFF}{\"brackets\":[[\"(\",\")\",],],}", "(,),"),
        (r#"{"brackets":[["\u00e9","\\"]]}"#, "\u{e9},\\,"),
    ] {
        assert_eq!(rt;
            told(rt.alloc(), file.as_bytes())?.as_slice(),
            pairs.as_bytes(),
            "{file}"
        );
    }
    Ok(())
}

#[test]
fn each_wrong_value_of_a_bracket_file_has_its_pointer(rt: HostRuntime) -> Result<(), Fail> {
    for (file, path) in [
        ("", "json"),
        ("{", "json"),
        (r#"{"brackets":[["(",")"]]"#, "json"),
        (r#"{"brackets":[["(",")"],,]}"#, "json"),
        (r#"{"brackets":[["(",")"]]} x"#, "json"),
        ("[]", ""),
        ("null", ""),
        (r#""()""#, ""),
        (r#"{"brackets":{}}"#, "/brackets"),
        (r#"{"brackets":"()"}"#, "/brackets"),
        (r#"{"brackets":false}"#, "/brackets"),
        (r#"{"colorizedBracketPairs":{}}"#, "/colorizedBracketPairs"),
        (r#"{"brackets":["()"]}"#, "/brackets/0"),
        (r#"{"brackets":[["(",")"],null]}"#, "/brackets/1"),
        (r#"{"brackets":[["("]]}"#, "/brackets/0"),
        (r#"{"brackets":[[]]}"#, "/brackets/0"),
        (r#"{"brackets":[["(",")","x"]]}"#, "/brackets/0"),
        (r#"{"brackets":[[5]]}"#, "/brackets/0"),
        (r#"{"brackets":[[5,6,7]]}"#, "/brackets/0"),
        (r#"{"brackets":[{"open":"(","close":")"}]}"#, "/brackets/0"),
        (r#"{"brackets":[[5,")"]]}"#, "/brackets/0/0"),
        (r#"{"brackets":[["(",null]]}"#, "/brackets/0/1"),
        (r#"{"brackets":[[[],{}]]}"#, "/brackets/0/0"),
        (r#"{"brackets":[["<",5],["(",")"]]}"#, "/brackets/0/1"),
        (r#"{"brackets":[["(",")"],["(",5],[5]]}"#, "/brackets/1/1"),
        (r#"{"brackets":[["<",">"],["<",">"],["("]]}"#, "/brackets/2"),
        (
            r#"{"brackets":[["("]],"colorizedBracketPairs":[["(",")"],["(",5]]}"#,
            "/colorizedBracketPairs/1/1",
        ),
        (
            r#"{"colorizedBracketPairs":[["("]]}"#,
            "/colorizedBracketPairs/0",
        ),
    ] {
        assert_eq!(rt;
            told(rt.alloc(), file.as_bytes())?.as_slice(),
            path.as_bytes(),
            "{file}"
        );
    }
    assert_eq!(rt;
        told(rt.alloc(), b"{\"brackets\":[[\"\xFF\",\")\"]]}")?.as_slice(),
        b"json".as_slice()
    );
    Ok(())
}

#[test]
fn a_bracket_file_cut_anywhere_is_refused(rt: HostRuntime) -> Result<(), Fail> {
    let file = r#"{"brackets":[["{","}"],["\u00e9","\\"]],"colorizedBracketPairs":[["<",">"]]}"#;
    for to in 0..file.len() {
        if let Some(front) = file.as_bytes().get(..to) {
            assert_eq!(rt; told(rt.alloc(), front)?.as_slice(), b"json".as_slice());
        }
    }
    Ok(())
}

/// An object that nests so deep, one more for each list in it.
fn nested(alloc: Global, lists: usize) -> Result<String, AllocError> {
    let mut file = String::from_str(alloc, r#"{"scopeName":"s","x":"#)?;
    for _ in 0..lists {
        file.push('[')?;
    }
    for _ in 0..lists {
        file.push(']')?;
    }
    file.push('}')?;
    Ok(file)
}

#[test]
fn files_nest_at_most_127_deep(rt: HostRuntime) -> Result<(), Fail> {
    let deep = nested(rt.alloc(), 126)?;
    assert_eq!(rt;
        told(rt.alloc(), deep.as_bytes())?.as_slice(),
        b"".as_slice()
    );
    assert!(rt; read_grammar(rt.alloc(), deep.as_bytes()).is_ok());
    let deeper = nested(rt.alloc(), 127)?;
    assert_eq!(rt;
        told(rt.alloc(), deeper.as_bytes())?.as_slice(),
        b"json".as_slice()
    );
    assert!(rt; read_grammar(rt.alloc(), deeper.as_bytes()).is_err());
    Ok(())
}

#[test]
fn lists_are_what_was_put_into_them(rt: HostRuntime) -> Result<(), Fail> {
    let mut pairs = PairTexts::new(rt.alloc());
    pairs.push(PairText {
        opener: Name::of(rt.alloc(), "(")?,
        closer: Name::of(rt.alloc(), ")")?,
    })?;
    assert_eq!(rt;
        shown(rt.alloc(), pairs.as_slice())?.as_slice(),
        b"(,),".as_slice()
    );
    let mut entries = Entries::new(rt.alloc());
    assert!(rt; entries.as_slice().is_empty());
    entries.push(Entry::Include(Name::of(rt.alloc(), "#a")?))?;
    entries.push(Entry::Include(Name::of(rt.alloc(), "#b")?))?;
    match entries.as_slice() {
        [Entry::Include(first), Entry::Include(second)] => {
            assert_eq!(rt; first.text(), "#a");
            assert_eq!(rt; second.text(), "#b");
        }
        _ => panic!(&rt; "other entries"),
    }
    let mut captures = Captures::new(rt.alloc());
    captures.push(Capture {
        number: 7,
        name: None,
        content: None,
        patterns: Some(entries),
    })?;
    match captures.as_slice() {
        [capture] => assert_eq!(rt; capture.number, 7),
        _ => panic!(&rt; "other captures"),
    }
    Ok(())
}
