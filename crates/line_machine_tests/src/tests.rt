use crate::lines::told;
use crate::rows::{
    Row, block, capture, end_last, group, inside, lasting, single, with_content, with_ends,
    with_starts,
};
use std::alloc::{AllocError, Global};
use std::test::Fail;

/// That the lines of a text give so much by some rules.
fn gives(
    alloc: Global,
    rows: &[Row<'_>],
    text: &str,
    budget: u32,
    wanted: &str,
) -> Result<bool, AllocError> {
    let lines = told(alloc, rows, text, budget)?;
    Ok(lines.as_str() == wanted)
}

#[test]
fn captures_stand_in_one_another(rt: HostRuntime) -> Result<(), Fail> {
    assert!(rt;
        gives(
            rt.alloc(),
            &[
                group(&[1]),
                single(
                    "m",
                    "((a)(b))(c)?(d)",
                    &[
                        capture(0, "w"),
                        capture(1, "x"),
                        capture(2, "y"),
                        capture(3, "z"),
                        capture(4, "u"),
                        capture(5, "v $5.$4"),
                    ],
                ),
            ],
            "abd abcd",
            1000,
            "0-1 s m w x y;1-2 s m w x z;2-3 s m w v d.;3-4 s;4-5 s m w x y;5-6 s m w x z;6-7 s m w u;7-8 s m w v d.c;1/",
        )?
    );
    Ok(())
}

#[test]
fn captures_ahead_of_the_match(rt: HostRuntime) -> Result<(), Fail> {
    assert!(rt;
        gives(
            rt.alloc(),
            &[
                group(&[1]),
                single("m", "a(?=bb(c))(b)", &[capture(1, "x"), capture(2, "y")]),
            ],
            "abbc",
            1000,
            "0-2 s m;2-4 s;1/",
        )?
    );
    assert!(rt;
        gives(
            rt.alloc(),
            &[
                group(&[1]),
                single("m", "a(?=b(c)(d))", &[capture(1, "x"), capture(2, "y")]),
            ],
            "abcd",
            1000,
            "0-1 s m;1-4 s;1/",
        )?
    );
    assert!(rt;
        gives(
            rt.alloc(),
            &[
                group(&[1]),
                single("m", "a(?=(b)(c))", &[capture(1, "x"), capture(2, "y")]),
            ],
            "abcd",
            1000,
            "0-1 s m;1-2 s m x;2-4 s;1/",
        )?
    );
    assert!(rt;
        gives(
            rt.alloc(),
            &[
                group(&[1]),
                single(
                    "m",
                    "()a(?=bc())(b)",
                    &[capture(1, "x"), capture(2, "y"), capture(3, "z")],
                ),
            ],
            "abc",
            1000,
            "0-1 s m;1-2 s m z;2-3 s;1/",
        )?
    );
    Ok(())
}

#[test]
fn the_while_pass(rt: HostRuntime) -> Result<(), Fail> {
    assert!(rt;
        gives(
            rt.alloc(),
            &[
                group(&[1]),
                with_ends(
                    &[capture(0, "w"), capture(1, "v")],
                    lasting("q", "^>", "^>( ?)", &[]),
                ),
            ],
            "> ab\n> b\n>\nb",
            1000,
            "0-1 s q;1-4 s q;2/0-1 s q w;1-2 s q w v;2-3 s q;2/0-1 s q w;2/0-1 s;1/",
        )?
    );
    assert!(rt;
        gives(
            rt.alloc(),
            &[
                group(&[1]),
                with_content("w2", lasting("w1", "a", "(?=b)", &[2])),
                lasting("w3", "c", "\\Gb", &[3, 4]),
                single("g", "\\G.", &[]),
                single("d", "d", &[]),
            ],
            "ac\nbd\nbbd\nd",
            1000,
            "0-1 s w1;1-2 s w1 w2 w3;3/0-1 s w1 w2 w3;1-2 s w1 w2 w3 g;3/0-1 s w1 w2 w3;1-2 s w1 w2 w3 g;2-3 s w1 w2 w3 d;3/0-1 s;1/",
        )?
    );
    assert!(rt;
        gives(
            rt.alloc(),
            &[
                group(&[1]),
                lasting("w", "a", "^a", &[2]),
                block("p", "\\(", "\\)", &[3]),
                lasting("v", "b", "^ab", &[]),
            ],
            "a(b\nabx\na)\nax\nx",
            1000,
            "0-1 s w;1-2 s w p;2-3 s w p v;4/0-1 s w;1-2 s w p v;2-3 s w p v;4/0-1 s w;1-2 s w p;2/0-1 s w;1-2 s w;2/0-1 s;1/",
        )?
    );
    Ok(())
}

#[test]
fn while_patterns_with_captures_and_spent(rt: HostRuntime) -> Result<(), Fail> {
    assert!(rt;
        gives(
            rt.alloc(),
            &[
                group(&[1]),
                lasting("w", "(.)>", "^\\1", &[2]),
                single("g", "\\G.", &[]),
            ],
            "+>x\n+y\n+\n-",
            1000,
            "0-2 s w;2-3 s w g;2/0-1 s w;1-2 s w g;2/0-1 s w;2/0-1 s;1/",
        )?
    );
    assert!(rt;
        gives(
            rt.alloc(),
            &[group(&[1]), lasting("w", "^>", "(a*)*b", &[])],
            ">\naaaaaab\naaaaaaa\nab",
            60,
            "0-1 s w;2/0-7 s w;2/0-7 s w;!2/0-2 s w;2/",
        )?
    );
    Ok(())
}

#[test]
fn matches_that_take_nothing(rt: HostRuntime) -> Result<(), Fail> {
    assert!(rt;
        gives(
            rt.alloc(),
            &[
                group(&[1]),
                block("b", "<", ">", &[2, 3]),
                single("n", "(?=x)", &[]),
                single("y", "y", &[]),
            ],
            "<yxy>\ny>",
            1000,
            "0-1 s b;1-2 s b y;2-5 s;1/0-2 s;1/",
        )?
    );
    assert!(rt;
        gives(
            rt.alloc(),
            &[group(&[1]), block("z", "(?=a)", "(?=a)", &[])],
            "ba\nb",
            1000,
            "0-1 s;1-2 s z;2/0-1 s z;2/",
        )?
    );
    assert!(rt;
        gives(
            rt.alloc(),
            &[
                group(&[1]),
                with_content("in", block("z", "<", "(?=a)|>", &[2])),
                with_content("yin", block("y", "(?=a)", "(?=a)", &[])),
            ],
            "<aa>\na>",
            1000,
            "0-1 s z;1-4 s;1/0-2 s;1/",
        )?
    );
    assert!(rt;
        gives(
            rt.alloc(),
            &[
                group(&[1, 3]),
                block("z", "(?=a)", "a|z", &[2]),
                single("b", "b", &[]),
                single("c", "b", &[]),
            ],
            "bab\nbz",
            1000,
            "0-1 s c;1-2 s z;2-3 s c;1/0-1 s c;1-2 s;1/",
        )?
    );
    Ok(())
}

#[test]
fn frames_on_frames_of_their_own(rt: HostRuntime) -> Result<(), Fail> {
    assert!(rt;
        gives(
            rt.alloc(),
            &[group(&[1]), block("z", "(?=a)", "$", &[1])],
            "ba\na",
            1000,
            "0-1 s;1-2 s z z;3/0-1 s z z z;4/",
        )?
    );
    assert!(rt;
        gives(
            rt.alloc(),
            &[
                group(&[1]),
                block("x", "(?=a)", "q", &[2]),
                block("y", "(?=a)", "r", &[1]),
            ],
            "ba\nrq",
            1000,
            "0-1 s;1-2 s x y x;4/0-1 s x y x;1-2 s x y x;3/",
        )?
    );
    assert!(rt;
        gives(
            rt.alloc(),
            &[
                group(&[1]),
                block("x", "(?=a)", "(?!a)", &[2]),
                block("y", "(?=a)", "(?=a)", &[3]),
                single("a", "a", &[]),
            ],
            "baab\na",
            1000,
            "0-1 s;1-4 s x y;3/0-1 s x y;3/",
        )?
    );
    Ok(())
}

#[test]
fn names_ends_and_empty_lines(rt: HostRuntime) -> Result<(), Fail> {
    assert!(rt;
        gives(
            rt.alloc(),
            &[
                group(&[1]),
                with_content(
                    "c.$2 d",
                    with_starts(
                        &[capture(1, "b1"), capture(2, "b2")],
                        with_ends(
                            &[capture(0, "e0"), capture(1, "e1.$1")],
                            block("n.$2", "(a)(.)", "(z)(.)", &[]),
                        ),
                    ),
                ),
            ],
            "a.xyz!q",
            1000,
            "0-1 s n. b1;1-2 s n. b2;2-4 s n. c. d;4-5 s n. e0 e1.z;5-6 s n. e0;6-7 s;1/",
        )?
    );
    assert!(rt;
        gives(
            rt.alloc(),
            &[
                group(&[1, 3]),
                end_last(block("l", "a", "b", &[2])),
                single("k", "b+", &[]),
                block("f", "c", "b", &[4]),
                single("k", "b+", &[]),
            ],
            "abba\nb\nbcbb",
            1000,
            "0-1 s l;1-3 s l k;3-4 s l;2/0-1 s l k;2/0-1 s l k;1-2 s l;2-4 s l k;2/",
        )?
    );
    assert!(rt;
        gives(
            rt.alloc(),
            &[
                group(&[1, 2, 3]),
                single("n", "\\n", &[]),
                single("a", "a", &[]),
                single("b", "b\\n", &[]),
            ],
            "a\n\nb\nc",
            1000,
            "0-1 s a;1/0-0 s;1/0-1 s b;1/0-1 s;1/",
        )?
    );
    assert!(rt;
        gives(
            rt.alloc(),
            &[
                group(&[1, 2]),
                single("n", "^$", &[]),
                block("b", "x$", "^$", &[3]),
                single("d", ".", &[]),
            ],
            "\nx\ny\n\nx",
            1000,
            "0-0 s;1/0-1 s b;2/0-1 s b d;2/0-0 s;1/0-1 s b;2/",
        )?
    );
    Ok(())
}

#[test]
fn a_run_over_a_capture_goes_to_its_end(rt: HostRuntime) -> Result<(), Fail> {
    let entries = [inside(1, "c", 2)];
    let rows = [
        group(&[1]),
        single("t", "<(.*)>", &entries),
        group(&[3]),
        single("a", "a", &[]),
    ];
    assert!(rt;
        gives(
            rt.alloc(),
            &rows,
            "<ab>",
            1000,
            "0-1 s t;1-2 s t c a;2-3 s t c;3-4 s t;1/"
        )?
    );
    Ok(())
}
