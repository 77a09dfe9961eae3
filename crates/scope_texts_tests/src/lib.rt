//! Tests of `scope_texts`: what texts stand for after a match, with ample memory.
#![tactic(auto)]

#[cfg(test)]
mod tests {
    use onig_match::{Work, attempt};
    use onig_parse::read_pattern;
    use pattern_defs::{Flags, Outcome};
    use pattern_tree::Pattern;
    use scope_texts::{end_text, scope_text};
    use std::alloc::{AllocError, Global};
    use std::test::Fail;
    use text_pos::Name;

    const FLAGS: Flags = Flags {
        first: true,
        anchor: None,
    };

    /// What a scope text, or an end text, stands for after the match of a pattern at the front of a text.
    fn matched(
        alloc: Global,
        pattern: &Pattern,
        text: &[char],
        name: &str,
        is_end: bool,
    ) -> Result<Name, AllocError> {
        if text.len() > 1000 {
            return Name::of(alloc, "too long");
        }
        let mut work = Work::new(alloc, 1000, pattern.groups())?;
        match attempt(pattern, &mut work, text, 0, FLAGS) {
            Outcome::Hit => {
                if is_end {
                    end_text(alloc, name, text, &work)
                } else {
                    scope_text(alloc, name, text, &work)
                }
            }
            Outcome::Miss => Name::of(alloc, "miss"),
            Outcome::Spent => Name::of(alloc, "spent"),
        }
    }

    fn stands_for(
        alloc: Global,
        pattern: &str,
        text: &str,
        name: &str,
        is_end: bool,
    ) -> Result<Name, AllocError> {
        let text: Vec<char> = text.chars().collect(alloc)?;
        match read_pattern(alloc, pattern) {
            Ok(pattern) => matched(alloc, &pattern, text.as_slice(), name, is_end),
            Err(_) => Name::of(alloc, "refused"),
        }
    }

    #[test]
    fn scope_texts_stand_for_captured_texts(rt: HostRuntime) -> Result<(), Fail> {
        for (pattern, text, name, wanted) in [
            ("(\\.a)|b", ".ab", "x.$1k${1:/upcase} y.$7", "x.akA y.$7"),
            ("(\\.a)|b", "b", "x.$1k${1:/upcase} y.$7", "x.k y.$7"),
            (
                "(.)(.)",
                "\u{e9}B",
                "${1:/upcase}-${2:/downcase}",
                "\u{e9}-b",
            ),
            (
                "(a)",
                "a",
                "$0 $01 $10 $ ${1} ${1:/x} $4294967297",
                "a a $10 $ ${1} ${1:/x} $4294967297",
            ),
            ("(\\.+)", "...", "x$1", "x"),
        ] {
            assert_eq!(rt;
                stands_for(rt.alloc(), pattern, text, name, false)?.text(),
                wanted
            );
        }
        Ok(())
    }

    #[test]
    fn end_texts_stand_for_captured_texts(rt: HostRuntime) -> Result<(), Fail> {
        for (pattern, text, end, wanted) in [
            ("<<(\\w+)", "<<AB", "^\\1$", "^AB$"),
            ("(.)(x)?(.*)", "-. #", "\\1\\2\\3\\9\\12", "\\-\\.\\ \\#"),
            ("(.)", "\u{a0}", "\\\\1\\01", "\\\\\u{a0}\\\u{a0}"),
            ("a", "a", "\\0\\1b\\", "ab\\"),
        ] {
            assert_eq!(rt;
                stands_for(rt.alloc(), pattern, text, end, true)?.text(),
                wanted
            );
        }
        Ok(())
    }
}
