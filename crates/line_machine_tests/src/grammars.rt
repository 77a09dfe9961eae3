use crate::lines::told;
use crate::rows::{
    Row, block, capture, end_last, group, inside, lasting, single, with_content, with_ends,
    with_starts,
};
use std::alloc::{AllocError, Global};
use std::test::Fail;

/// That the lines of a text give so much by some rules.
fn gives(
    alloc: Global,
    rows: &[Row<'_>],
    text: &str,
    budget: u32,
    wanted: &str,
) -> Result<bool, AllocError> {
    let lines = told(alloc, rows, text, budget)?;
    Ok(lines.as_str() == wanted)
}

#[test]
fn matches(rt: HostRuntime) -> Result<(), Fail> {
    // a match has its scope
    assert!(rt;
        gives(
            rt.alloc(),
            &[group(&[1]), single("k", "x", &[])],
            "axbx",
            5000,
            "0-1 s;1-2 s k;2-3 s;3-4 s k;1/",
        )?
    );
    // of two matches at one place the first rule's counts
    assert!(rt;
        gives(
            rt.alloc(),
            &[
                group(&[1, 2]),
                single("one", "ab", &[]),
                single("two", "abc", &[])
            ],
            "abc",
            5000,
            "0-2 s one;2-3 s;1/",
        )?
    );
    // the earlier match counts, whatever its rule
    assert!(rt;
        gives(
            rt.alloc(),
            &[
                group(&[1, 2]),
                single("one", "b", &[]),
                single("two", "a", &[])
            ],
            "ab",
            5000,
            "0-1 s two;1-2 s one;1/",
        )?
    );
    // a scope text of two names pushes both
    assert!(rt;
        gives(
            rt.alloc(),
            &[group(&[1]), single("k l", "x", &[])],
            "x",
            5000,
            "0-1 s k l;1/",
        )?
    );
    // a rule without a name adds no scope
    assert!(rt;
        gives(
            rt.alloc(),
            &[group(&[1]), single("", "x", &[])],
            "axa",
            5000,
            "0-1 s;1-2 s;2-3 s;1/",
        )?
    );
    // a match without characters stops the line
    assert!(rt;
        gives(
            rt.alloc(),
            &[
                group(&[1, 2]),
                single("k", "(?=b)", &[]),
                single("l", "b", &[])
            ],
            "abb",
            5000,
            "0-1 s;1-3 s;1/",
        )?
    );
    Ok(())
}

#[test]
fn matches_2(rt: HostRuntime) -> Result<(), Fail> {
    // a pattern that can't be read never matches
    assert!(rt;
        gives(
            rt.alloc(),
            &[group(&[1, 2]), single("k", "(", &[]), single("l", "b", &[])],
            "(b",
            5000,
            "0-1 s;1-2 s l;1/",
        )?
    );
    // a line is searched with its line feed
    assert!(rt;
        gives(
            rt.alloc(),
            &[group(&[1]), single("k", "b\\n", &[])],
            "ab\nb",
            5000,
            "0-1 s;1-2 s k;1/0-1 s k;1/",
        )?
    );
    // an empty line is one empty token
    assert!(rt;
        gives(
            rt.alloc(),
            &[group(&[1]), single("k", "x", &[])],
            "\nx\n",
            5000,
            "0-0 s;1/0-1 s k;1/0-0 s;1/",
        )?
    );
    Ok(())
}

#[test]
fn captures(rt: HostRuntime) -> Result<(), Fail> {
    // a capture's scope stands inside the match's
    assert!(rt;
        gives(
            rt.alloc(),
            &[group(&[1]), single("k", "a(b)c", &[capture(1, "l")])],
            "abc",
            5000,
            "0-1 s k;1-2 s k l;2-3 s k;1/",
        )?
    );
    // capture 0 is the whole match
    assert!(rt;
        gives(
            rt.alloc(),
            &[group(&[1]), single("", "ab", &[capture(0, "l")])],
            "xabx",
            5000,
            "0-1 s;1-3 s l;3-4 s;1/",
        )?
    );
    // captures in one another nest
    assert!(rt;
        gives(
            rt.alloc(),
            &[
                group(&[1]),
                single("", "(a(b)c)", &[capture(1, "k"), capture(2, "l")])
            ],
            "abc",
            5000,
            "0-1 s k;1-2 s k l;2-3 s k;1/",
        )?
    );
    // a capture that is unset shows nothing
    assert!(rt;
        gives(
            rt.alloc(),
            &[
                group(&[1]),
                single("", "(a)|(b)", &[capture(1, "k"), capture(2, "l")])
            ],
            "ba",
            5000,
            "0-1 s l;1-2 s k;1/",
        )?
    );
    // an empty capture shows nothing
    assert!(rt;
        gives(
            rt.alloc(),
            &[group(&[1]), single("", "a()b", &[capture(1, "k")])],
            "ab",
            5000,
            "0-2 s;1/",
        )?
    );
    // a capture in a lookahead may reach behind the match
    assert!(rt;
        gives(
            rt.alloc(),
            &[group(&[1]), single("m", "a(?=(bc))", &[capture(1, "cap")])],
            "abcd",
            5000,
            "0-1 s m;1-3 s m cap;3-4 s;1/",
        )?
    );
    Ok(())
}

#[test]
fn runs_in_captures(rt: HostRuntime) -> Result<(), Fail> {
    // a capture with patterns has a run of its own
    assert!(rt;
        gives(
            rt.alloc(),
            &[
                group(&[1]),
                single("m", "a(?=(bc))", &[inside(1, "cap", 2)]),
                group(&[3]),
                single("in", "c", &[])
            ],
            "abcd",
            5000,
            "0-1 s m;1-2 s m cap;2-3 s m cap in;3-4 s;1/",
        )?
    );
    // a capture's run ends with the capture
    assert!(rt;
        gives(
            rt.alloc(),
            &[
                group(&[1]),
                single("", "(ab)c", &[inside(1, "", 2)]),
                group(&[3]),
                single("k", "b.?", &[])
            ],
            "abc",
            5000,
            "0-1 s;1-2 s k;2-3 s;1/",
        )?
    );
    // a capture with an empty list covers its part
    assert!(rt;
        gives(
            rt.alloc(),
            &[
                group(&[1]),
                single("", "(a(b))", &[inside(1, "k", 2), capture(2, "l")]),
                group(&[])
            ],
            "ab",
            5000,
            "0-2 s k;1/",
        )?
    );
    // two captures side by side
    assert!(rt;
        gives(
            rt.alloc(),
            &[
                group(&[1]),
                single("", "(a)(b)", &[capture(1, "k"), capture(2, "l")])
            ],
            "ab",
            5000,
            "0-1 s k;1-2 s l;1/",
        )?
    );
    // a capture that starts behind the match ends the captures
    assert!(rt;
        gives(
            rt.alloc(),
            &[group(&[1]), single("m", "a(?=b(c))", &[capture(1, "k")])],
            "abc",
            5000,
            "0-1 s m;1-3 s;1/",
        )?
    );
    Ok(())
}

#[test]
fn captures_of_begin_and_end(rt: HostRuntime) -> Result<(), Fail> {
    // captures of a begin go by captures where it has none
    assert!(rt;
        gives(
            rt.alloc(),
            &[
                group(&[1]),
                with_ends(
                    &[capture(1, "k")],
                    with_starts(&[capture(1, "k")], block("", "(<)", "(>)", &[]))
                )
            ],
            "<a>",
            5000,
            "0-1 s k;1-2 s;2-3 s k;1/",
        )?
    );
    // beginCaptures go before captures
    assert!(rt;
        gives(
            rt.alloc(),
            &[
                group(&[1]),
                with_ends(
                    &[capture(1, "k")],
                    with_starts(&[capture(1, "l")], block("", "(<)", "(>)", &[]))
                )
            ],
            "<a>",
            5000,
            "0-1 s l;1-2 s;2-3 s k;1/",
        )?
    );
    // endCaptures go before captures
    assert!(rt;
        gives(
            rt.alloc(),
            &[
                group(&[1]),
                with_ends(
                    &[capture(1, "l")],
                    with_starts(&[capture(1, "k")], block("", "(<)", "(>)", &[]))
                )
            ],
            "<a>",
            5000,
            "0-1 s k;1-2 s;2-3 s l;1/",
        )?
    );
    Ok(())
}

#[test]
fn blocks(rt: HostRuntime) -> Result<(), Fail> {
    // what begins goes on over lines
    assert!(rt;
        gives(
            rt.alloc(),
            &[group(&[1]), block("comment.block", "/\\*", "\\*/", &[])],
            "a/*b\nc\n*/d",
            5000,
            "0-1 s;1-3 s comment.block;3-4 s comment.block;2/0-1 s comment.block;2/0-2 s comment.block;2-3 s;1/",
        )?
    );
    // contentName stands inside begin and end
    assert!(rt;
        gives(
            rt.alloc(),
            &[group(&[1]), with_content("l", block("k", "<", ">", &[]))],
            "<a>",
            5000,
            "0-1 s k;1-2 s k l;2-3 s k;1/",
        )?
    );
    // rules inside
    assert!(rt;
        gives(
            rt.alloc(),
            &[
                group(&[1]),
                block("k", "<", ">", &[2]),
                single("l", "x", &[])
            ],
            "x<x>x",
            5000,
            "0-1 s;1-2 s k;2-3 s k l;3-4 s k;4-5 s;1/",
        )?
    );
    // the end goes before the rules inside
    assert!(rt;
        gives(
            rt.alloc(),
            &[
                group(&[1]),
                block("k", "<", ">", &[2]),
                single("l", ">", &[])
            ],
            "<>>",
            5000,
            "0-1 s k;1-2 s k;2-3 s;1/",
        )?
    );
    // the end goes behind them with applyEndPatternLast
    assert!(rt;
        gives(
            rt.alloc(),
            &[
                group(&[1]),
                end_last(block("k", "<", ">", &[2])),
                single("l", ">", &[])
            ],
            "<>>",
            5000,
            "0-1 s k;1-2 s k l;2-3 s k l;2/",
        )?
    );
    // a rule inside that matches earlier hides the end
    assert!(rt;
        gives(
            rt.alloc(),
            &[
                group(&[1]),
                block("k", "<", ">", &[2]),
                single("esc", "\\\\.", &[])
            ],
            "<\\>>",
            5000,
            "0-1 s k;1-3 s k esc;3-4 s k;1/",
        )?
    );
    Ok(())
}

#[test]
fn ends(rt: HostRuntime) -> Result<(), Fail> {
    // without an end it goes on for ever
    assert!(rt;
        gives(
            rt.alloc(),
            &[group(&[1]), block("k", "<", "", &[])],
            "a<b\nc>",
            5000,
            "0-1 s;1-2 s k;2-3 s k;2/0-2 s k;2/",
        )?
    );
    // the same rule inside itself
    assert!(rt;
        gives(
            rt.alloc(),
            &[group(&[1]), block("p", "\\(", "\\)", &[1])],
            "((a)b)c",
            5000,
            "0-1 s p;1-2 s p p;2-3 s p p;3-4 s p p;4-5 s p;5-6 s p;6-7 s;1/",
        )?
    );
    // an end with a back reference
    assert!(rt;
        gives(
            rt.alloc(),
            &[group(&[1]), block("string.here", "<<(\\w+)", "^\\1$", &[])],
            "<<AB\n(\nAB\n(",
            5000,
            "0-4 s string.here;2/0-1 s string.here;2/0-2 s string.here;1/0-1 s;1/",
        )?
    );
    // what was captured is no pattern
    assert!(rt;
        gives(
            rt.alloc(),
            &[group(&[1]), block("k", "(.)<", "\\1", &[])],
            ".<a.b",
            5000,
            "0-2 s k;2-3 s k;3-4 s k;4-5 s;1/",
        )?
    );
    // an end is looked for with its own begin's capture
    assert!(rt;
        gives(
            rt.alloc(),
            &[group(&[1]), block("k", "(.)<", "\\1", &[1])],
            "a<b<ab",
            5000,
            "0-2 s k;2-4 s k k;4-5 s k k;5-6 s k k;2/",
        )?
    );
    Ok(())
}

#[test]
fn begins_without_characters(rt: HostRuntime) -> Result<(), Fail> {
    // a begin without characters whose end has none is left again
    assert!(rt;
        gives(
            rt.alloc(),
            &[group(&[1]), block("z", "(?=a)", "(?=a)", &[])],
            "ba\nb",
            5000,
            "0-1 s;1-2 s z;2/0-1 s z;2/",
        )?
    );
    // a begin without characters and an end behind them
    assert!(rt;
        gives(
            rt.alloc(),
            &[group(&[1]), block("z", "(?=a)", "(?<=a)", &[])],
            "bab",
            5000,
            "0-1 s;1-2 s z;2-3 s;1/",
        )?
    );
    // a begin that takes the line's end
    assert!(rt;
        gives(
            rt.alloc(),
            &[
                group(&[1]),
                block("r", "a\\n", "z", &[2]),
                single("g", "\\Gb", &[])
            ],
            "a\nb\nbb",
            5000,
            "0-1 s r;2/0-1 s r g;2/0-1 s r g;1-2 s r;2/",
        )?
    );
    Ok(())
}

#[test]
fn anchors(rt: HostRuntime) -> Result<(), Fail> {
    // A holds at the first line's start alone
    assert!(rt;
        gives(
            rt.alloc(),
            &[group(&[1]), single("k", "\\Aa", &[])],
            "aa\na",
            5000,
            "0-1 s k;1-2 s;1/0-1 s;1/",
        )?
    );
    // G holds where a begin ended
    assert!(rt;
        gives(
            rt.alloc(),
            &[
                group(&[1]),
                block("k", "<", ">", &[2]),
                single("g", "\\Gx", &[])
            ],
            "<xx>x",
            5000,
            "0-1 s k;1-2 s k g;2-3 s k;3-4 s k;4-5 s;1/",
        )?
    );
    // G holds nowhere at the front of a line
    assert!(rt;
        gives(
            rt.alloc(),
            &[group(&[1]), single("g", "\\Gx", &[])],
            "xx",
            5000,
            "0-2 s;1/",
        )?
    );
    // a caret holds at the front of each line
    assert!(rt;
        gives(
            rt.alloc(),
            &[group(&[1]), single("k", "^x", &[])],
            "xx\nx",
            5000,
            "0-1 s k;1-2 s;1/0-1 s k;1/",
        )?
    );
    // a dollar holds before the line feed
    assert!(rt;
        gives(
            rt.alloc(),
            &[group(&[1]), single("k", "x$", &[])],
            "xx\nx",
            5000,
            "0-1 s;1-2 s k;1/0-1 s k;1/",
        )?
    );
    Ok(())
}

#[test]
fn while_rules(rt: HostRuntime) -> Result<(), Fail> {
    // a while rule goes on where its pattern is found
    assert!(rt;
        gives(
            rt.alloc(),
            &[group(&[1]), lasting("string.quote", "^>", "^>", &[])],
            "> a\n> b\nc\n> d",
            5000,
            "0-1 s string.quote;1-3 s string.quote;2/0-1 s string.quote;1-3 s string.quote;2/0-1 s;1/0-1 s string.quote;1-3 s string.quote;2/",
        )?
    );
    // a while pattern may be found further on
    assert!(rt;
        gives(
            rt.alloc(),
            &[group(&[1]), lasting("k", ">", ">", &[])],
            ">a\nb>c\nd",
            5000,
            "0-1 s k;1-2 s k;2/0-1 s k;1-2 s k;2-3 s k;2/0-1 s;1/",
        )?
    );
    // whileCaptures show
    assert!(rt;
        gives(
            rt.alloc(),
            &[
                group(&[1]),
                with_ends(&[capture(1, "l")], lasting("k", "^>", "^(>)", &[]))
            ],
            ">a\n>b",
            5000,
            "0-1 s k;1-2 s k;2/0-1 s k l;1-2 s k;2/",
        )?
    );
    // rules inside a while rule
    assert!(rt;
        gives(
            rt.alloc(),
            &[
                group(&[1]),
                lasting("k", "^>", "^>", &[2]),
                single("l", "x", &[])
            ],
            ">x\n>x\nx",
            5000,
            "0-1 s k;1-2 s k l;2/0-1 s k;1-2 s k l;2/0-1 s;1/",
        )?
    );
    // where an outer while rule ends, the inner ones end
    assert!(rt;
        gives(
            rt.alloc(),
            &[
                group(&[1]),
                lasting("k", "^>", "^>", &[2]),
                block("l", "<", "!", &[])
            ],
            "><a\n>b\nc",
            5000,
            "0-1 s k;1-2 s k l;2-3 s k l;3/0-1 s k;1-2 s k l;3/0-1 s;1/",
        )?
    );
    // a while text with a back reference
    assert!(rt;
        gives(
            rt.alloc(),
            &[group(&[1]), lasting("k", "^(.)>", "^\\1", &[])],
            "a>b\nac\nbd",
            5000,
            "0-2 s k;2-3 s k;2/0-1 s k;1-2 s k;2/0-2 s;1/",
        )?
    );
    Ok(())
}

#[test]
fn while_rules_2(rt: HostRuntime) -> Result<(), Fail> {
    // contentName of a while rule
    assert!(rt;
        gives(
            rt.alloc(),
            &[
                group(&[1]),
                with_content("l", lasting("k", "^>", "^>", &[]))
            ],
            ">a\n>b",
            5000,
            "0-1 s k;1-2 s k l;2/0-1 s k l;1-2 s k l;2/",
        )?
    );
    Ok(())
}

#[test]
fn included_rules(rt: HostRuntime) -> Result<(), Fail> {
    // a rule of the repository
    assert!(rt;
        gives(
            rt.alloc(),
            &[group(&[1]), single("k", "x", &[])],
            "ax",
            5000,
            "0-1 s;1-2 s k;1/",
        )?
    );
    // a group of the repository stands for its rules
    assert!(rt;
        gives(
            rt.alloc(),
            &[
                group(&[2, 3]),
                group(&[2, 3]),
                single("k", "x", &[]),
                single("l", "y", &[])
            ],
            "xy",
            5000,
            "0-1 s k;1-2 s l;1/",
        )?
    );
    // an include of nothing is dropped
    assert!(rt;
        gives(
            rt.alloc(),
            &[group(&[1]), single("k", "x", &[])],
            "x",
            5000,
            "0-1 s k;1/",
        )?
    );
    // includes in a circle end
    assert!(rt;
        gives(
            rt.alloc(),
            &[
                group(&[4, 2]),
                group(&[2, 4, 2]),
                single("k", "x", &[]),
                group(&[4, 2, 4]),
                single("l", "y", &[])
            ],
            "xy",
            5000,
            "0-1 s k;1-2 s l;1/",
        )?
    );
    // the own name includes the grammar
    assert!(rt;
        gives(
            rt.alloc(),
            &[group(&[1]), block("k", "<", ">", &[1])],
            "<<a>>",
            5000,
            "0-1 s k;1-2 s k k;2-3 s k k;3-4 s k k;4-5 s k;1/",
        )?
    );
    // the own name with a key
    assert!(rt;
        gives(
            rt.alloc(),
            &[group(&[1]), single("k", "x", &[])],
            "x",
            5000,
            "0-1 s k;1/",
        )?
    );
    Ok(())
}

#[test]
fn included_rules_2(rt: HostRuntime) -> Result<(), Fail> {
    // base is the grammar too
    assert!(rt;
        gives(
            rt.alloc(),
            &[group(&[1]), block("k", "<", ">", &[1])],
            "<<a>>",
            5000,
            "0-1 s k;1-2 s k k;2-3 s k k;3-4 s k k;4-5 s k;1/",
        )?
    );
    Ok(())
}

#[test]
fn scope_texts(rt: HostRuntime) -> Result<(), Fail> {
    // a capture in a scope text
    assert!(rt;
        gives(
            rt.alloc(),
            &[group(&[1]), single("k.$1", "(a|b)c", &[])],
            "acbc",
            5000,
            "0-2 s k.a;2-4 s k.b;1/",
        )?
    );
    // its leading dots go
    assert!(rt;
        gives(
            rt.alloc(),
            &[
                group(&[1]),
                single("x.$1k${1:/upcase} y.$7", "(\\.a)|b", &[])
            ],
            ".ab",
            5000,
            "0-2 s x.akA y.$7;2-3 s x.k y.$7;1/",
        )?
    );
    // upper and lower case
    assert!(rt;
        gives(
            rt.alloc(),
            &[
                group(&[1]),
                single("${1:/downcase}.${1:/upcase}", "(\\w+)", &[])
            ],
            "aB",
            5000,
            "0-2 s ab.AB;1/",
        )?
    );
    // a capture with a space is two names
    assert!(rt;
        gives(
            rt.alloc(),
            &[group(&[1]), single("k.$1", "(a b)", &[])],
            "a b",
            5000,
            "0-3 s k.a b;1/",
        )?
    );
    // an unset capture is empty
    assert!(rt;
        gives(
            rt.alloc(),
            &[group(&[1]), single("k.$1.l", "(a)|b", &[])],
            "b",
            5000,
            "0-1 s k..l;1/",
        )?
    );
    // 0 is the whole match
    assert!(rt;
        gives(
            rt.alloc(),
            &[group(&[1]), single("k.$0", "ab", &[])],
            "ab",
            5000,
            "0-2 s k.ab;1/",
        )?
    );
    Ok(())
}

#[test]
fn scope_texts_2(rt: HostRuntime) -> Result<(), Fail> {
    // a name of a begin takes the begin's captures
    assert!(rt;
        gives(
            rt.alloc(),
            &[
                group(&[1]),
                with_content("l.$1", block("k.$1", "(.)<", ">", &[]))
            ],
            "a<b>",
            5000,
            "0-2 s k.a;2-3 s k.a l.a;3-4 s k.a;1/",
        )?
    );
    // a capture's name takes the match's captures
    assert!(rt;
        gives(
            rt.alloc(),
            &[group(&[1]), single("", "(a)(b)", &[capture(1, "k.$2")])],
            "ab",
            5000,
            "0-1 s k.b;1-2 s;1/",
        )?
    );
    Ok(())
}

#[test]
fn scopes(rt: HostRuntime) -> Result<(), Fail> {
    // comment, string and regex set types
    assert!(rt;
        gives(
            rt.alloc(),
            &[
                group(&[1, 2, 3, 4]),
                single("comment.x", "a", &[]),
                single("string", "b", &[]),
                single("k.regex", "c", &[]),
                single("commentx", "d", &[])
            ],
            "abcd",
            5000,
            "0-1 s comment.x;1-2 s string;2-3 s k.regex;3-4 s commentx;1/",
        )?
    );
    // the last scope that sets a type counts
    assert!(rt;
        gives(
            rt.alloc(),
            &[
                group(&[1]),
                block("string", "<", ">", &[2, 3]),
                block("meta.embedded", "\\{", "\\}", &[]),
                single("comment", "#", &[])
            ],
            "<a{b}#>",
            5000,
            "0-1 s string;1-2 s string;2-3 s string meta.embedded;3-4 s string meta.embedded;4-5 s string meta.embedded;5-6 s string comment;6-7 s string;1/",
        )?
    );
    Ok(())
}

#[test]
fn spent_attempts(rt: HostRuntime) -> Result<(), Fail> {
    // a spent attempt ends the line
    assert!(rt;
        gives(
            rt.alloc(),
            &[group(&[1]), single("k", "(a*)*b", &[])],
            "aaaaaaaaaaaa b\na b",
            100,
            "0-14 s;!1/0-2 s;2-3 s k;1/",
        )?
    );
    // a spent end leaves the rule open
    assert!(rt;
        gives(
            rt.alloc(),
            &[group(&[1]), block("k", "<", "(x*)*y", &[])],
            "<xxxxxxxxxxxx\ny",
            60,
            "0-1 s k;1-13 s k;!2/0-1 s k;1/",
        )?
    );
    // a spent while pattern keeps its rule
    assert!(rt;
        gives(
            rt.alloc(),
            &[group(&[1]), lasting("k", "^>", "^(x*)*y", &[])],
            ">a\nxxxxxxxxxx\nyb\nb",
            60,
            "0-1 s k;1-2 s k;2/0-10 s k;!2/0-1 s k;1-2 s k;2/0-1 s;1/",
        )?
    );
    Ok(())
}

#[test]
fn stops_without_advance(rt: HostRuntime) -> Result<(), Fail> {
    // a rule that begins everywhere without characters
    assert!(rt;
        gives(
            rt.alloc(),
            &[group(&[1]), block("k", "(?=.)", "(?!)", &[1])],
            "ab\nc",
            5000,
            "0-2 s k;2/0-1 s k k;3/",
        )?
    );
    // two rules that begin in one another without characters
    assert!(rt;
        gives(
            rt.alloc(),
            &[
                group(&[1]),
                block("a", "(?=.)", "(?!)", &[2]),
                block("b", "(?=.)", "(?!)", &[1])
            ],
            "xy",
            5000,
            "0-2 s a b;3/",
        )?
    );
    // an end that stands where its begin stood
    assert!(rt;
        gives(
            rt.alloc(),
            &[
                group(&[1, 3]),
                block("k", "(?=a)", "(?=a)", &[2]),
                single("l", "b", &[]),
                single("m", "a", &[])
            ],
            "ab",
            5000,
            "0-2 s k;2/",
        )?
    );
    Ok(())
}

#[test]
fn line_ends(rt: HostRuntime) -> Result<(), Fail> {
    // characters beyond ASCII count one each
    assert!(rt;
        gives(
            rt.alloc(),
            &[group(&[1]), single("k", "é", &[])],
            "aéé😀b",
            5000,
            "0-1 s;1-2 s k;2-3 s k;3-5 s;1/",
        )?
    );
    // captures of a match that goes over the line feed
    assert!(rt;
        gives(
            rt.alloc(),
            &[
                group(&[1]),
                single("", "(a)(\\n)", &[capture(1, "k"), capture(2, "l")])
            ],
            "ba",
            5000,
            "0-1 s;1-2 s k;1/",
        )?
    );
    // an end at the line feed
    assert!(rt;
        gives(
            rt.alloc(),
            &[group(&[1]), block("comment", "//", "$", &[])],
            "a//b\nc",
            5000,
            "0-1 s;1-3 s comment;3-4 s comment;1/0-1 s;1/",
        )?
    );
    // an end that takes the line feed
    assert!(rt;
        gives(
            rt.alloc(),
            &[group(&[1]), block("comment", "//", "\\n", &[])],
            "a//b\nc",
            5000,
            "0-1 s;1-3 s comment;3-4 s comment;1/0-1 s;1/",
        )?
    );
    // an embedded expression in a string
    assert!(rt;
        gives(
            rt.alloc(),
            &[
                group(&[2, 1]),
                single("paren", "[()]", &[]),
                block("string.quoted", r#"""#, r#"""#, &[3, 4]),
                single("constant.escape", "\\\\.", &[]),
                block("meta.embedded", "\\$\\{", "\\}", &[2, 1])
            ],
            r#"("a\"${("b")}c")"#,
            5000,
            "0-1 s paren;1-2 s string.quoted;2-3 s string.quoted;3-5 s string.quoted constant.escape;5-7 s string.quoted meta.embedded;7-8 s string.quoted meta.embedded paren;8-9 s string.quoted meta.embedded string.quoted;9-10 s string.quoted meta.embedded string.quoted;10-11 s string.quoted meta.embedded string.quoted;11-12 s string.quoted meta.embedded paren;12-13 s string.quoted meta.embedded;13-14 s string.quoted;14-15 s string.quoted;15-16 s paren;1/",
        )?
    );
    Ok(())
}

#[test]
fn more_spent_attempts(rt: HostRuntime) -> Result<(), Fail> {
    // a spent attempt hides what stands behind it in the list
    assert!(rt;
        gives(
            rt.alloc(),
            &[
                group(&[1, 2]),
                single("k", "(x*)*y", &[]),
                single("l", "x", &[])
            ],
            "xxxxxxxxxx",
            60,
            "0-10 s;!1/",
        )?
    );
    // a begin that is spent
    assert!(rt;
        gives(
            rt.alloc(),
            &[group(&[1]), block("k", "(x*)*y", ">", &[])],
            "axxxxxxxxxx\nxy>",
            60,
            "0-11 s;!1/0-2 s k;2-3 s k;1/",
        )?
    );
    Ok(())
}

#[test]
fn kinds_of_rules(rt: HostRuntime) -> Result<(), Fail> {
    // a repository's rule may be a begin rule
    assert!(rt;
        gives(
            rt.alloc(),
            &[group(&[1]), block("p", "\\(", "\\)", &[1])],
            "(())",
            5000,
            "0-1 s p;1-2 s p p;2-3 s p p;3-4 s p;1/",
        )?
    );
    // a rule's patterns by a group without name
    assert!(rt;
        gives(
            rt.alloc(),
            &[
                group(&[2, 3]),
                group(&[2]),
                single("k", "x", &[]),
                single("l", "y", &[])
            ],
            "xy",
            5000,
            "0-1 s k;1-2 s l;1/",
        )?
    );
    // a match before begin in one rule
    assert!(rt;
        gives(
            rt.alloc(),
            &[group(&[1]), single("k", "x", &[])],
            "<x>",
            5000,
            "0-1 s;1-2 s k;2-3 s;1/",
        )?
    );
    // a while before an end in one rule
    assert!(rt;
        gives(
            rt.alloc(),
            &[group(&[1]), lasting("k", "<", "x", &[])],
            "<>\nx>\n>",
            5000,
            "0-1 s k;1-2 s k;2/0-1 s k;1-2 s k;2/0-1 s;1/",
        )?
    );
    // an end alone is a group
    assert!(rt;
        gives(
            rt.alloc(),
            &[group(&[2]), group(&[2]), single("l", "x", &[])],
            "x>",
            5000,
            "0-1 s l;1-2 s;1/",
        )?
    );
    Ok(())
}

#[test]
fn more_runs_in_captures(rt: HostRuntime) -> Result<(), Fail> {
    // runs inside captures begin no anchor
    assert!(rt;
        gives(
            rt.alloc(),
            &[
                group(&[1]),
                single("", "a(b+)", &[inside(1, "", 2)]),
                group(&[3]),
                single("k", "\\Gb", &[])
            ],
            "abb",
            5000,
            "0-1 s;1-3 s;1/",
        )?
    );
    // the first line's start is that of a capture too
    assert!(rt;
        gives(
            rt.alloc(),
            &[
                group(&[1]),
                single("", "(a)b", &[inside(1, "", 2)]),
                group(&[3]),
                single("k", "\\Aa", &[])
            ],
            "abab\nab",
            5000,
            "0-1 s k;1-2 s;2-3 s;3-4 s;1/0-1 s;1-2 s;1/",
        )?
    );
    // what a capture's run begins is dropped behind it
    assert!(rt;
        gives(
            rt.alloc(),
            &[
                group(&[1, 4]),
                single("", "(a<)", &[inside(1, "", 2)]),
                group(&[3]),
                block("k", "<", ">", &[]),
                single("l", "x", &[])
            ],
            "a<x",
            5000,
            "0-1 s;1-2 s k;2-3 s l;1/",
        )?
    );
    // a begin's captures stand in its name alone
    assert!(rt;
        gives(
            rt.alloc(),
            &[
                group(&[1]),
                with_starts(
                    &[capture(2, "c")],
                    with_content("l", block("k", "(<)(a)", ">", &[]))
                )
            ],
            "<ab>",
            5000,
            "0-1 s k;1-2 s k c;2-3 s k l;3-4 s k;1/",
        )?
    );
    Ok(())
}

#[test]
fn patterns(rt: HostRuntime) -> Result<(), Fail> {
    // lookbehind sees what stands before
    assert!(rt;
        gives(
            rt.alloc(),
            &[group(&[1]), single("k", "(?<=a)b", &[])],
            "bab",
            5000,
            "0-2 s;2-3 s k;1/",
        )?
    );
    // a lookbehind sees what a match took
    assert!(rt;
        gives(
            rt.alloc(),
            &[
                group(&[1, 2]),
                single("k", "a", &[]),
                single("l", "(?<=a)b", &[])
            ],
            "ab",
            5000,
            "0-1 s k;1-2 s l;1/",
        )?
    );
    // options within a pattern
    assert!(rt;
        gives(
            rt.alloc(),
            &[group(&[1]), single("k", "(?i:x)y", &[])],
            "XyXY",
            5000,
            "0-2 s k;2-4 s;1/",
        )?
    );
    // the extended form
    assert!(rt;
        gives(
            rt.alloc(),
            &[group(&[1]), single("k", "(?x) a b # both", &[])],
            "ab",
            5000,
            "0-2 s k;1/",
        )?
    );
    // an end before its content
    assert!(rt;
        gives(
            rt.alloc(),
            &[
                group(&[1, 2]),
                block("k", "<", "(?=>)", &[]),
                single("l", ">", &[])
            ],
            "<a>",
            5000,
            "0-1 s k;1-2 s k;2-3 s l;1/",
        )?
    );
    // an empty end is none
    assert!(rt;
        gives(
            rt.alloc(),
            &[group(&[1]), block("k", "<", "", &[])],
            "<a<b",
            5000,
            "0-1 s k;1-4 s k;2/",
        )?
    );
    Ok(())
}

#[test]
fn patterns_2(rt: HostRuntime) -> Result<(), Fail> {
    // a line that pops what it pushed
    assert!(rt;
        gives(
            rt.alloc(),
            &[
                group(&[1]),
                block("k", "(?=a)", "(?=a)|(?=b)", &[2]),
                single("l", "a", &[])
            ],
            "aab",
            5000,
            "0-3 s k;2/",
        )?
    );
    Ok(())
}
