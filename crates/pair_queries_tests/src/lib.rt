//! Tests of `pair_queries`: each call with ample memory, and what it answers.
#![tactic(auto)]

#[cfg(test)]
mod tests {
    use bracket_lex::{Brackets, MarkLines, Paired};
    use line_text::Text;
    use pair_queries::{Twin, around, brackets, guides, jump, level_at, match_at, pairs};
    use std::alloc::{AllocError, Global};
    use std::test::Fail;
    use text_pos::Pos;

    /// Two pairs of lines, one in the other, and pairs within lines.
    const PROGRAM: &[u8] = b"function f(a) {\n  if (a[0] > 1) {\n\tg(a);\n  }\n}\n(\n";

    fn rows_of(alloc: Global, text: &Text) -> Result<Paired, AllocError> {
        let brackets = Brackets::usual(alloc)?;
        let marks = MarkLines::of_text(alloc, &brackets, text, 20_000)?;
        Paired::of(alloc, &marks, marks.end(), 200)
    }

    fn at(line: u32, col: u32) -> Pos {
        Pos { line, col }
    }

    /// Where two partners start.
    fn starts(twin: Option<Twin>) -> Option<(Pos, Pos)> {
        match twin {
            None => None,
            Some(twin) => Some((twin.first.from, twin.second.from)),
        }
    }

    #[test]
    fn places_are_answered(rt: HostRuntime) -> Result<(), Fail> {
        let text = Text::from_bytes(rt.alloc(), PROGRAM)?;
        let paired = rows_of(rt.alloc(), &text)?;
        let rows = paired.rows();
        assert_eq!(rt;
            starts(match_at(rows, at(0, 10))),
            Some((at(0, 10), at(0, 12)))
        );
        assert_eq!(rt;
            starts(match_at(rows, at(4, 1))),
            Some((at(4, 0), at(0, 14)))
        );
        assert_eq!(rt; starts(match_at(rows, at(5, 0))), None);
        assert_eq!(rt; starts(around(rows, at(2, 0))), Some((at(1, 16), at(3, 2))));
        assert_eq!(rt; starts(around(rows, at(5, 1))), None);
        assert_eq!(rt; jump(rows, at(2, 0)), Some(at(3, 2)));
        assert_eq!(rt; jump(rows, at(0, 0)), Some(at(0, 10)));
        assert_eq!(rt; jump(rows, at(6, 0)), None);
        assert!(rt; rows.len() == 13);
        assert_eq!(rt; level_at(rows, at(1, 8)), 3);
        assert_eq!(rt; level_at(rows, at(6, 0)), 1);
        Ok(())
    }

    #[test]
    fn ranges_of_lines_are_answered(rt: HostRuntime) -> Result<(), Fail> {
        let text = Text::from_bytes(rt.alloc(), PROGRAM)?;
        let paired = rows_of(rt.alloc(), &text)?;
        let rows = paired.rows();
        assert_eq!(rt; brackets(rt.alloc(), rows, 3, 4)?.as_slice().len(), 2);
        let found = pairs(rt.alloc(), rows, 3, 3)?;
        assert_eq!(rt; found.as_slice().len(), 2);
        for pair in found.as_slice() {
            assert!(rt; pair.closer.is_some());
            assert_eq!(rt; pair.opener.line, pair.level);
        }
        for tab in [1, 4, 32] {
            let mut shown = String::new(rt.alloc());
            for guide in guides(rt.alloc(), rows, &text, tab, 0, text.lines() - 1)?.as_slice() {
                let row = format!(in rt.alloc();
                    "{} {} {};",
                    guide.line, guide.column, guide.level
                )?;
                shown.push_str(row.as_str())?;
            }
            assert_eq!(rt; shown.as_str(), "1 0 0;2 0 0;2 2 1;3 0 0;3 2 1;4 0 0;");
        }
        Ok(())
    }

    #[test]
    fn a_tab_goes_to_the_next_multiple(rt: HostRuntime) -> Result<(), Fail> {
        let text = Text::from_bytes(rt.alloc(), b" \t(\n \t )")?;
        let paired = rows_of(rt.alloc(), &text)?;
        let rows = paired.rows();
        for (tab, column) in [(1, 2), (2, 2), (4, 4), (32, 32)] {
            for guide in guides(rt.alloc(), rows, &text, tab, 0, text.lines() - 1)?.as_slice() {
                assert_eq!(rt; guide.column, column);
                assert_eq!(rt; guide.line, 1);
            }
        }
        Ok(())
    }
}
