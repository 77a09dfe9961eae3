use crate::worked::short;
use std::alloc::{AllocError, Global};
use std::test::Fail;

/// The file of a grammar with the scope name `s`, by the members of its `patterns` and of its `injections`.
fn file(alloc: Global, patterns: &str, injections: &str) -> Result<String, AllocError> {
    let mut file = String::new(alloc);
    file.push_str(r#"{"scopeName":"s","patterns":["#)?;
    file.push_str(patterns)?;
    file.push_str(r#"],"injections":{"#)?;
    file.push_str(injections)?;
    file.push_str("}}")?;
    Ok(file)
}

/// That the lines of a text give so much by such a grammar, where an attempt has 1,000 visits.
fn gives(
    alloc: Global,
    patterns: &str,
    injections: &str,
    text: &str,
    wanted: &str,
) -> Result<bool, Fail> {
    let file = file(alloc, patterns, injections)?;
    Ok(short(alloc, file.as_str(), text, 1_000)?.as_str() == wanted)
}

#[test]
fn of_left_and_right_the_left_one_wins_at_an_equal_start(rt: HostRuntime) -> Result<(), Fail> {
    assert!(rt;
        gives(
            rt.alloc(),
            r#"{"match":"x","name":"base"}"#,
            r#""L:s":{"patterns":[{"match":"x(?=1)","name":"left"}]},"R:s":{"patterns":[{"match":"x","name":"right"}]}"#,
            "x1 x2",
            "0-1 s left;1-3 s;3-4 s base;4-5 s;1/",
        )?
    );
    Ok(())
}

#[test]
fn of_equal_starts_one_priority_wins(rt: HostRuntime) -> Result<(), Fail> {
    for (patterns, injections, text, wanted) in [
        // the ordinary match goes before one of priority 0
        (
            r#"{"match":"x","name":"base"}"#,
            r#""s":{"match":"x","name":"zero"}"#,
            "x",
            "0-1 s base;1/",
        ),
        // that of priority -1 goes before it
        (
            r#"{"match":"x","name":"base"}"#,
            r#""L:s":{"match":"x","name":"left"}"#,
            "x",
            "0-1 s left;1/",
        ),
        // that of priority 1 doesn't
        (
            r#"{"match":"x","name":"base"}"#,
            r#""R:s":{"match":"x","name":"right"}"#,
            "x",
            "0-1 s base;1/",
        ),
        // so too behind the place of the search
        (
            r#"{"match":"b","name":"base"}"#,
            r#""L:s":{"match":"b","name":"left"},"s":{"match":"b","name":"zero"}"#,
            "ab",
            "0-1 s;1-2 s left;1/",
        ),
        // and without that of priority -1
        (
            r#"{"match":"b","name":"base"}"#,
            r#""s":{"match":"b","name":"zero"}"#,
            "ab",
            "0-1 s;1-2 s base;1/",
        ),
        // of injections that of priority -1 counts
        (
            "",
            r#""s":{"match":"x","name":"zero"},"R:s":{"match":"x","name":"right"},"L:s":{"match":"x","name":"left"}"#,
            "x",
            "0-1 s left;1/",
        ),
        // then that of priority 0
        (
            "",
            r#""R:s":{"match":"x","name":"right"},"s":{"match":"x","name":"zero"}"#,
            "x",
            "0-1 s zero;1/",
        ),
        // keys stand by their bytes, wherever they stand in the file
        (
            "",
            r#""s":{"match":"x","name":"one"}," s":{"match":"x","name":"two"}"#,
            "x",
            "0-1 s two;1/",
        ),
        // each entry of a key counts for itself
        (
            "",
            r#""a, L:s":{"match":"y","name":"one"},"L: s":{"match":"x","name":"two"}"#,
            "xy",
            "0-1 s two;1-2 s one;1/",
        ),
    ] {
        assert!(rt; gives(rt.alloc(), patterns, injections, text, wanted)?);
    }
    Ok(())
}

#[test]
fn the_earlier_start_wins(rt: HostRuntime) -> Result<(), Fail> {
    for (patterns, injections, text, wanted) in [
        // that of priority 1 too
        (
            r#"{"match":"b","name":"base"}"#,
            r#""R:s":{"match":"a","name":"right"}"#,
            "ab",
            "0-1 s right;1-2 s base;1/",
        ),
        // that of an ordinary match too
        (
            r#"{"match":"a","name":"base"}"#,
            r#""L:s":{"match":"b","name":"left"}"#,
            "ab",
            "0-1 s base;1-2 s left;1/",
        ),
        // where nothing ordinary is found, any
        (
            "",
            r#""R:s":{"match":"b","name":"right"}"#,
            "ab",
            "0-1 s;1-2 s right;1/",
        ),
        // of injections too
        (
            "",
            r#""L:s":{"match":"b","name":"left"},"R:s":{"match":"a","name":"right"}"#,
            "ab",
            "0-1 s right;1-2 s left;1/",
        ),
        // of the patterns of one the first
        (
            "",
            r#""s":{"patterns":[{"match":"ab","name":"one"},{"match":"a","name":"two"}]}"#,
            "ab",
            "0-2 s one;1/",
        ),
        // a rule that matches stands for itself, whatever it lists
        (
            "",
            r#""s":{"match":"a","name":"m","patterns":[{"match":"b","name":"q"}]}"#,
            "ab",
            "0-1 s m;1-2 s;1/",
        ),
        // a rule without both for what it includes
        (
            r#"{"match":"x","name":"base"}"#,
            r#""L:s":{"include":"$self"},"s":{"include":"t"}"#,
            "x",
            "0-1 s base;1/",
        ),
        // a key that is no selector injects nothing
        (
            "",
            r#""a |":{"match":"x","name":"one"},"s":{"match":"y","name":"two"}"#,
            "xy",
            "0-1 s;1-2 s two;1/",
        ),
    ] {
        assert!(rt; gives(rt.alloc(), patterns, injections, text, wanted)?);
    }
    Ok(())
}

#[test]
fn a_spent_attempt_decides(rt: HostRuntime) -> Result<(), Fail> {
    for (patterns, injections, text, wanted) in [
        // of an ordinary pattern, before injections are asked
        (
            r#"{"match":"(x*)*y","name":"base"}"#,
            r#""L:s":{"match":"x","name":"left"}"#,
            "xxxxxxxxxxxxxxxxxxxx",
            "0-20 s;!1/",
        ),
        // of an injection, though an ordinary pattern matches
        (
            r#"{"match":"x","name":"base"}"#,
            r#""s":{"match":"(x*)*y","name":"zero"}"#,
            "xxxxxxxxxxxxxxxxxxxx",
            "0-20 s;!1/",
        ),
        // of one behind another that starts later
        (
            "",
            r#""L:s":{"match":"x$","name":"left"},"R:s":{"match":"(x*)*y","name":"right"}"#,
            "xxxxxxxxxxxxxxxxxxxx",
            "0-20 s;!1/",
        ),
        // not of one behind a start at the place
        (
            "",
            r#""L:s":{"match":"x+","name":"left"},"R:s":{"match":"(x*)*y","name":"right"}"#,
            "xxxxxxxxxxxxxxxxxxxx",
            "0-20 s left;1/",
        ),
        // not of one that doesn't hold
        (
            r#"{"match":"x+","name":"base"}"#,
            r#""t":{"match":"(x*)*y","name":"zero"}"#,
            "xxxxxxxxxxxxxxxxxxxx",
            "0-20 s base;1/",
        ),
    ] {
        assert!(rt; gives(rt.alloc(), patterns, injections, text, wanted)?);
    }
    Ok(())
}

#[test]
fn an_entry_holds_of_the_content_scopes(rt: HostRuntime) -> Result<(), Fail> {
    for (patterns, injections, text, wanted) in [
        // inside, where the content has the name
        (
            r#"{"begin":"<","end":">","name":"n","contentName":"c"}"#,
            r#""c":{"match":"x","name":"i"}"#,
            "x<x>x",
            "0-1 s;1-2 s n;2-3 s n c i;3-4 s n;4-5 s;1/",
        ),
        // not inside, where the name alone would do
        (
            r#"{"begin":"<","end":">","name":"n","contentName":"c"}"#,
            r#""n - c":{"match":"x","name":"i"}"#,
            "x<x>x",
            "0-1 s;1-2 s n;2-3 s n c;3-4 s n;4-5 s;1/",
        ),
        // one stops to hold behind a push, and holds again behind a pop
        (
            r#"{"begin":"<","end":">","name":"n"}"#,
            r#""s - n":{"match":"x","name":"i"}"#,
            "x<x>x",
            "0-1 s i;1-2 s n;2-3 s n;3-4 s n;4-5 s i;1/",
        ),
        // names of a path stand in their order
        (
            r#"{"begin":"<","end":">","name":"a.x q b"}"#,
            r#""a b - c":{"match":"x","name":"i"}"#,
            "x<x>",
            "0-1 s;1-2 s a.x q b;2-3 s a.x q b i;3-4 s a.x q b;1/",
        ),
        // and not in another
        (
            r#"{"begin":"<","end":">","name":"a.x q b"}"#,
            r#""b a":{"match":"x","name":"i"}"#,
            "x<x>",
            "0-1 s;1-2 s a.x q b;2-3 s a.x q b;3-4 s a.x q b;1/",
        ),
        // the mark of a begin holds for injections too
        (
            r#"{"begin":"<","end":">","name":"n"}"#,
            r#""s":{"match":"\\Gx","name":"g"}"#,
            "x<xx>",
            "0-1 s;1-2 s n;2-3 s n g;3-4 s n;4-5 s n;1/",
        ),
        // the same inside a capture with patterns
        (
            r#"{"match":"\\[(x)\\]","name":"m","captures":{"1":{"patterns":[]}}}"#,
            r#""s":{"match":"x","name":"i"}"#,
            "[x]",
            "0-1 s m;1-2 s m i;2-3 s m;1/",
        ),
    ] {
        assert!(rt; gives(rt.alloc(), patterns, injections, text, wanted)?);
    }
    Ok(())
}

#[test]
fn an_injected_begin_is_open_inside_itself(rt: HostRuntime) -> Result<(), Fail> {
    for (patterns, injections, text, wanted) in [
        // where its entry holds of its own scopes
        (
            "",
            r#""s":{"begin":"\\(","end":"\\)","name":"p"}"#,
            "(a(b))",
            "0-1 s p;1-2 s p;2-3 s p p;3-4 s p p;4-5 s p p;5-6 s p;1/",
        ),
        // not where it doesn't
        (
            "",
            r#""s - p":{"begin":"\\(","end":"\\)","name":"p"}"#,
            "(a(b))",
            "0-1 s p;1-4 s p;4-5 s p;5-6 s;1/",
        ),
        // it goes on in the next line
        (
            "",
            r#""s - p":{"begin":"/\\*","end":"\\*/","name":"p"}"#,
            "/*x\n*/y",
            "0-2 s p;2-3 s p;2/0-2 s p;2-3 s;1/",
        ),
        // one that takes nothing is open once at a place
        (
            "",
            r#""s":{"begin":"(?=a)","end":"b","name":"p"}"#,
            "ab",
            "0-2 s p;2/",
        ),
        // a match that takes nothing stops the line
        ("", r#""s":{"match":"(?=a)","name":"i"}"#, "ab", "0-2 s;1/"),
    ] {
        assert!(rt; gives(rt.alloc(), patterns, injections, text, wanted)?);
    }
    Ok(())
}

#[test]
fn an_end_is_an_ordinary_pattern(rt: HostRuntime) -> Result<(), Fail> {
    for (patterns, injections, text, wanted) in [
        // one of priority -1 at its place wins
        (
            r#"{"begin":"<","end":">","name":"n"}"#,
            r#""L:s":{"match":">","name":"left"}"#,
            "<>a",
            "0-1 s n;1-2 s n left;2-3 s n;2/",
        ),
        // one of priority 0 doesn't
        (
            r#"{"begin":"<","end":">","name":"n"}"#,
            r#""s":{"match":">","name":"zero"}"#,
            "<>a",
            "0-1 s n;1-2 s n;2-3 s;1/",
        ),
        // nor one of priority 1
        (
            r#"{"begin":"<","end":">","name":"n"}"#,
            r#""R:s":{"match":">","name":"right"}"#,
            "<>a",
            "0-1 s n;1-2 s n;2-3 s;1/",
        ),
        // one that starts before it wins
        (
            r#"{"begin":"<","end":">","name":"n"}"#,
            r#""s":{"match":"a>","name":"zero"}"#,
            "<a>",
            "0-1 s n;1-3 s n zero;2/",
        ),
        // a while is asked before injections are
        (
            r#"{"begin":"^>","while":"^>","name":"q"}"#,
            r#""L:q":{"match":">","name":"left"}"#,
            ">a\n>>",
            "0-1 s q;1-2 s q;2/0-1 s q;1-2 s q left;2/",
        ),
    ] {
        assert!(rt; gives(rt.alloc(), patterns, injections, text, wanted)?);
    }
    Ok(())
}
