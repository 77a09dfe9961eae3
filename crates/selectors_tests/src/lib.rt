//! Tests of `selectors`: each call with ample memory, and what it answers.
#![tactic(auto)]

#[cfg(test)]
mod tests {
    use scope_names::Scopes;
    use selectors::{Selector, SelectorRefusal, may_meet};
    use std::alloc::{AllocError, Global};
    use std::test::Fail;

    /// Whether entry `n` of a selector holds of the scopes of a text, where there are such an entry and such scopes.
    fn holds(alloc: Global, selector: &Selector, n: u64, scopes: &str) -> Result<bool, AllocError> {
        let scopes = Scopes::empty().push(alloc, scopes)?;
        Ok(n < selector.entries() && selector.holds(n, &scopes))
    }

    /// The priority of an entry, where there is one.
    fn priority(selector: &Selector, n: u64) -> Option<i8> {
        if n < selector.entries() {
            return Some(selector.priority(n));
        }
        None
    }

    /// The place where a text is refused as a selector.
    fn refused(alloc: Global, text: &str) -> Option<u64> {
        match Selector::read(alloc, text) {
            Err(SelectorRefusal::Syntax { at }) => Some(at),
            _ => None,
        }
    }

    #[test]
    fn entries_have_priorities_and_hold(rt: HostRuntime) -> Result<(), Fail> {
        let selector = Selector::read(rt.alloc(), "a b - c, L:d")?;
        assert_eq!(rt; selector.entries(), 2);
        assert_eq!(rt;
            (priority(&selector, 0), priority(&selector, 1)),
            (Some(0), Some(-1))
        );
        assert!(rt; holds(rt.alloc(), &selector, 0, "a.x q b")?);
        assert!(rt; !holds(rt.alloc(), &selector, 0, "a b c")?);
        assert!(rt; holds(rt.alloc(), &selector, 1, "s d.e")?);
        assert!(rt; !holds(rt.alloc(), &selector, 1, "s de")?);
        Ok(())
    }

    /// Whether the keys that the first entry of a selector needs may be there in the scopes of a text; with no such keys
    /// they may.
    fn may_hold(alloc: Global, text: &str, scopes: &str) -> Result<bool, SelectorRefusal> {
        let selector = Selector::read(alloc, text)?;
        let scopes = Scopes::empty().push(alloc, scopes)?;
        if selector.entries() == 0 {
            return Ok(true);
        }
        Ok(match selector.needed_keys(alloc, 0)? {
            None => true,
            Some(needed) => may_meet(&scopes, needed.as_slice()),
        })
    }

    #[test]
    fn an_entry_needs_keys_of_paths_that_must_hold(rt: HostRuntime) -> Result<(), Fail> {
        let scopes = "source.css meta.property-value.css string.quoted.css";
        for text in [
            "source.css",
            "source",
            "L:source.css meta",
            "source.css.x - (comment | string)",
            "(source.css meta) - (comment | string)",
            "(source.js | string)",
            "-comment.line",
            "-(comment | string)",
            "(source.js | - string)",
            "-(-source.js)",
            "-(comment | string) source.js",
        ] {
            assert!(rt; may_hold(rt.alloc(), text, scopes)?, "{text}");
        }
        for text in [
            "source.js",
            "nowhere",
            "css",
            "L:source.css comment",
            "source.js - (comment | string)",
            "(nowhere meta.tag) - (comment | string)",
            "R:((source.js | comment) - string)",
            "(source.js - string | comment.line, nowhere)",
            "((source.js | nowhere) (string | meta))",
            "-comment (source.js)",
        ] {
            assert!(rt; !may_hold(rt.alloc(), text, scopes)?, "{text}");
        }
        assert!(rt; !may_hold(rt.alloc(), "source", "")?);
        assert!(rt; may_hold(rt.alloc(), "-source", "")?);
        Ok(())
    }

    /// Whether the first entry of a selector holds of the first scopes and not of the others.
    fn tells(alloc: Global, text: &str, wanted: &str, unwanted: &str) -> bool {
        let Ok(selector) = Selector::read(alloc, text) else {
            return false;
        };
        let holds_there = matches!(holds(alloc, &selector, 0, wanted), Ok(true));
        let holds_here = matches!(holds(alloc, &selector, 0, unwanted), Ok(false));
        holds_there && holds_here
    }

    /// Whether each row's selector holds of the first scopes and not of the others.
    fn all_tell(alloc: Global, rows: &[(&str, &str, &str)]) -> bool {
        for row in rows {
            if !tells(alloc, row.0, row.1, row.2) {
                return false;
            }
        }
        true
    }

    #[test]
    fn selectors_of_names_and_paths_hold_where_they_are_to(rt: HostRuntime) {
        let rows = [
            ("a", "a", "b"),
            ("a", "s a.b", "ab"),
            ("a", "a.b.c", ""),
            ("a.b", "a.b", "a"),
            ("a.b", "a.b.c", "a.bc"),
            ("a.b", "x a.b", "b.a"),
            ("a b", "a b", "b a"),
            ("a b", "a q b", "a"),
            ("a b", "a.x q b.y z", "b"),
            ("a a", "a a", "a"),
            ("a a", "a.b s a.c", "a.a"),
            ("a b c", "a b c", "a c b"),
            ("a b c", "a b b c c", "a b"),
            ("a b a", "a b a", "a a b"),
        ];
        assert!(rt; all_tell(rt.alloc(), &rows));
    }

    #[test]
    fn selectors_of_minus_signs_hold_where_they_are_to(rt: HostRuntime) {
        let rows = [
            ("-a", "", "a"),
            ("- a", "b", "x a.b"),
            ("--a", "a", "b"),
            ("- - a", "s a", "s"),
            ("a -b", "a", "a b"),
            ("a - b", "a c", "b a"),
            ("a - b c", "a b", "a b c"),
            ("a -b -c", "a d", "a c"),
            ("a-b", "a-b", "a"),
            ("a-b", "x a-b.c", "a b"),
            ("-a-b", "a b", "a-b"),
            ("(a)", "a", "b"),
        ];
        assert!(rt; all_tell(rt.alloc(), &rows));
    }

    #[test]
    fn selectors_of_parentheses_hold_where_they_are_to(rt: HostRuntime) {
        let rows = [
            ("(a|b)", "a", "c"),
            ("(a|b)", "b", ""),
            ("(a,b)", "b", "c"),
            ("(a b|c)", "c", "a"),
            ("(a b|c)", "a b", "b a"),
            ("(a|b) c", "b c", "c"),
            ("(a|b) c", "c a", "a"),
            ("(a|b)(c|d)", "b d", "a b"),
            ("-(a|b)", "c", "a"),
            ("-(a|b)", "", "b"),
            ("-(a b)", "b a", "a b"),
        ];
        assert!(rt; all_tell(rt.alloc(), &rows));
    }

    #[test]
    fn selectors_of_parentheses_in_one_another_hold_where_they_are_to(rt: HostRuntime) {
        let rows = [
            ("-(a -b)", "a b", "a"),
            ("a -(b|c)", "a d", "a c"),
            ("(-a|b)", "c", "a"),
            ("(-a|b)", "a b", "a"),
            ("((a))", "a", "b"),
            ("((a|b) c|d)", "d", "a"),
            ("((a|b) c|d)", "b c", "c"),
            ("(a (b|c (d|e)))", "a c e", "a c"),
            ("(a (b|c (d|e)))", "a b", "b c d"),
        ];
        assert!(rt; all_tell(rt.alloc(), &rows));
    }

    #[test]
    fn selectors_of_priorities_and_spaces_hold_where_they_are_to(rt: HostRuntime) {
        let rows = [
            ("-(-(a|b) c)", "a c", "c"),
            ("L:a b", "a b", "b"),
            ("R:a-b", "a-b", "a b"),
            ("L:L:a", "L:a", "a"),
            ("(L:a)", "L:a", "a"),
            ("- R:b", "b", "R:b"),
            ("  a   b  ", "a b", "b a"),
            ("_a.1:2", "_a.1:2", "_a"),
            ("a,b", "a", "b"),
        ];
        assert!(rt; all_tell(rt.alloc(), &rows));
    }

    #[test]
    fn each_refusal_has_its_place(rt: HostRuntime) {
        for (text, at) in [
            ("", 0),
            ("   ", 3),
            ("L:", 2),
            ("R: ", 3),
            ("a |", 2),
            ("a|b", 1),
            ("|", 0),
            (",a", 0),
            ("a,", 2),
            ("a,,b", 2),
            ("a, L:", 5),
            ("a -", 3),
            ("- ", 2),
            ("-,a", 1),
            ("-)", 1),
            ("(", 1),
            ("(a", 2),
            ("((a)", 4),
            ("()", 1),
            ("a )", 2),
            ("(a))", 3),
            ("(a|)", 3),
            ("(|a)", 1),
            ("(a,)", 3),
            ("a\tb", 1),
            ("\ta", 0),
            ("a+b", 1),
            ("a * b", 2),
            ("a\u{e9}b", 1),
            ("a b \u{e9}", 4),
            ("a/b", 1),
            ("a\nb", 1),
        ] {
            assert_eq!(rt; refused(rt.alloc(), text), Some(at), "{text:?}");
        }
    }

    #[test]
    fn operands_nest_a_hundred_deep(rt: HostRuntime) -> Result<(), Fail> {
        for (count, at) in [(99, None), (100, None), (101, Some(101)), (300, Some(101))] {
            let mut text = String::new(rt.alloc());
            for _ in 0..count {
                text.push('(')?;
            }
            text.push('a')?;
            for _ in 0..count {
                text.push(')')?;
            }
            assert_eq!(rt; refused(rt.alloc(), text.as_str()), at, "{count}");
            let is_read = tells(rt.alloc(), text.as_str(), "a", "b");
            assert_eq!(rt; is_read, at.is_none(), "{count}");
        }
        for (count, at) in [(100, None), (101, Some(101))] {
            let mut text = String::new(rt.alloc());
            for _ in 0..count {
                text.push('-')?;
            }
            text.push('a')?;
            assert_eq!(rt; refused(rt.alloc(), text.as_str()), at, "{count}");
            let is_read = tells(rt.alloc(), text.as_str(), "a", "b");
            assert_eq!(rt; is_read, at.is_none(), "{count}");
        }
        Ok(())
    }

    #[test]
    fn many_operands_take_no_deep_recursion(rt: HostRuntime) -> Result<(), Fail> {
        let mut text = String::new(rt.alloc());
        for _ in 0..100_000 {
            text.push_str("(a|b)")?;
        }
        let selector = Selector::read(rt.alloc(), text.as_str())?;
        assert!(rt; holds(rt.alloc(), &selector, 0, "b")?);
        assert!(rt; !holds(rt.alloc(), &selector, 0, "c")?);
        Ok(())
    }
}
