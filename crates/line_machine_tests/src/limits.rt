use crate::lines::told;
use crate::rows::{block, group, inside, single};
use std::alloc::{AllocError, Global};
use std::test::Fail;

/// A text of some characters behind one another.
fn repeated(alloc: Global, front: &str, c: char, count: u32) -> Result<String, AllocError> {
    let mut text = String::new(alloc);
    text.push_str(front)?;
    for _ in 0..count {
        text.push(c)?;
    }
    Ok(text)
}

#[test]
fn a_thousand_rules_are_open_at_most(rt: HostRuntime) -> Result<(), Fail> {
    for (count, open) in [
        (998, "/999/"),
        (999, "/1000/"),
        (1000, "/1000/"),
        (1001, "/1000/"),
    ] {
        let text = repeated(rt.alloc(), "\n", '(', count)?;
        let lines = told(
            rt.alloc(),
            &[group(&[1]), block("", "\\(", "\\)", &[1])],
            text.as_str(),
            1000,
        )?;
        let last = lines.as_str().rsplit_once(';').map_or("", |(_, end)| end);
        assert_eq!(rt; last, &open[1..], "{count}");
    }
    Ok(())
}

#[test]
fn runs_in_captures_are_sixteen_deep(rt: HostRuntime) -> Result<(), Fail> {
    let text = repeated(rt.alloc(), "a", 'x', 18)?;
    let lines = told(
        rt.alloc(),
        &[
            group(&[1]),
            single("", "(.+)x", &[inside(1, "k", 2)]),
            group(&[1]),
        ],
        text.as_str(),
        1000,
    )?;
    assert!(rt;
        lines.as_str().starts_with(
            "0-2 s k k k k k k k k k k k k k k k k k;2-3 s k k k k k k k k k k k k k k k k;"
        )
    );
    Ok(())
}
