//! Tests of `scope_names` and `scope_stack`: each call with ample memory, and what it answers.
#![tactic(auto)]

#[cfg(test)]
mod tests {
    use scope_names::keys::key_of;
    use scope_stack::{
        EndText, Frame, MOST_FRAMES, MOST_NAMES, RuleId, Scopes, SharedName, Stack, State, StdType,
        Token, TokenRows,
    };
    use std::alloc::{AllocError, Global};
    use std::test::Fail;

    /// Whether these scopes have these names, by number and from the last to the first.
    fn has_names(scopes: &Scopes, names: &[&str]) -> bool {
        if scopes.len() as usize != names.len() {
            return false;
        }
        let by_number = (0..scopes.len())
            .zip(names.iter())
            .all(|(n, name)| n < scopes.len() && scopes.name(n) == *name);
        let mut back = scopes.names_back();
        let backwards = names.iter().rev().all(|name| back.next() == Some(*name));
        by_number && backwards && back.next().is_none()
    }

    /// The scopes of one text.
    fn scopes_of(alloc: Global, text: &str) -> Result<Scopes, AllocError> {
        Scopes::empty().push(alloc, text)
    }

    #[test]
    fn texts_are_pushed_piece_by_piece(rt: HostRuntime) -> Result<(), Fail> {
        let none = Scopes::empty();
        assert!(rt; none.is_empty() && has_names(&none, &[]));
        let some = none.push(rt.alloc(), " a.b  c ")?;
        assert!(rt; has_names(&some, &["a.b", "c"]));
        let shared = SharedName::of(rt.alloc(), "d e\t f")?;
        assert_eq!(rt; shared.len(), 3);
        let more = some.push_shared(rt.alloc(), &shared)?;
        assert!(rt; has_names(&more, &["a.b", "c", "d", "e\t", "f"]));
        assert!(rt; has_names(&some, &["a.b", "c"]));
        assert!(rt;
            has_names(
                &more.push(rt.alloc(), "  ")?,
                &["a.b", "c", "d", "e\t", "f"]
            )
        );
        assert!(rt;
            has_names(
                &more.copy()?.push(rt.alloc(), "caf\u{e9}")?,
                &["a.b", "c", "d", "e\t", "f", "caf\u{e9}"]
            )
        );
        Ok(())
    }

    #[test]
    fn lists_are_the_same_where_their_names_are(rt: HostRuntime) -> Result<(), Fail> {
        let at_once = scopes_of(rt.alloc(), "a b c")?;
        let in_turn = scopes_of(rt.alloc(), "a")?.push(rt.alloc(), "b c")?;
        assert!(rt; at_once.same(&in_turn) && in_turn.same(&at_once));
        for other in ["a b", "a b d", "a bc", "a b c d", "c b a", ""] {
            assert!(rt; !at_once.same(&scopes_of(rt.alloc(), other)?), "{other}");
        }
        assert!(rt; Scopes::empty().same(&scopes_of(rt.alloc(), " ")?));
        Ok(())
    }

    #[test]
    fn lists_tell_keys_that_no_name_has(rt: HostRuntime) -> Result<(), Fail> {
        let scopes = scopes_of(rt.alloc(), "source.shell string.quoted.double.shell")?;
        assert!(rt; scopes.may_have(key_of("source.shell".as_bytes())));
        assert!(rt; scopes.may_have(key_of("string.quoted".as_bytes())));
        assert!(rt; !scopes.may_have(key_of("source.css".as_bytes())));
        assert!(rt; scopes.may_have(key_of("source".as_bytes())));
        assert!(rt; scopes.may_have(key_of("string".as_bytes())));
        assert!(rt; !scopes.may_have(key_of("quoted".as_bytes())));
        assert!(rt; !scopes.may_have(key_of("comment".as_bytes())));
        assert!(rt; !Scopes::empty().may_have(key_of("source.shell".as_bytes())));
        Ok(())
    }

    #[test]
    fn the_last_scope_that_sets_a_type_decides(rt: HostRuntime) -> Result<(), Fail> {
        for (text, kind) in [
            ("", StdType::Other),
            ("source.c", StdType::Other),
            ("comment.block", StdType::Comment),
            ("s comment.line string.quoted", StdType::Text),
            ("string.quoted comment x", StdType::Comment),
            ("string.regexp.js", StdType::Text),
            ("x-regex.y", StdType::RegEx),
            ("string meta.embedded.block", StdType::Other),
            ("comments", StdType::Other),
            ("string1 _string string_", StdType::Other),
            ("a.string.comment", StdType::Text),
        ] {
            assert_eq!(rt; scopes_of(rt.alloc(), text)?.std_type(), kind, "{text}");
        }
        Ok(())
    }

    #[test]
    fn a_name_of_many_pieces_and_many_pushes_take_no_deep_recursion(
        rt: HostRuntime,
    ) -> Result<(), Fail> {
        let mut text = String::new(rt.alloc());
        for _ in 0..100_000 {
            text.push_str("a ")?;
        }
        let at_once = scopes_of(rt.alloc(), text.as_str())?;
        assert_eq!(rt; at_once.len(), 100_000);
        let mut in_turn = Scopes::empty();
        for _ in 0..100_000 {
            in_turn = in_turn.push(rt.alloc(), "a")?;
        }
        assert!(rt; in_turn.same(&at_once));
        assert!(rt; !in_turn.push(rt.alloc(), "a")?.same(&at_once));
        Ok(())
    }

    #[test]
    fn names_past_the_limit_are_dropped(rt: HostRuntime) -> Result<(), Fail> {
        let mut text = String::new(rt.alloc());
        for _ in 0..1024 {
            text.push_str("a ")?;
        }
        let many = SharedName::of(rt.alloc(), text.as_str())?;
        let mut scopes = scopes_of(rt.alloc(), "first")?;
        for _ in 0..1024 {
            scopes = scopes.push_shared(rt.alloc(), &many)?;
        }
        assert_eq!(rt; scopes.len(), MOST_NAMES);
        assert_eq!(rt;
            scopes.push(rt.alloc(), "comment")?.std_type(),
            StdType::Other
        );
        Ok(())
    }

    /// A frame whose places of entry and anchor are these.
    fn frame(
        alloc: Global,
        rule: u32,
        enter: Option<u32>,
        anchor: Option<u32>,
    ) -> Result<Frame, AllocError> {
        Ok(Frame {
            rule: RuleId(rule),
            enter,
            anchor,
            took_end: false,
            end: EndText::of(alloc, "^AB$")?,
            name: scopes_of(alloc, "s")?,
            content: scopes_of(alloc, "s c")?,
        })
    }

    /// The state of a frame of rule 0 below that frame.
    fn state(alloc: Global, top: Frame) -> Result<State, AllocError> {
        let root = Stack::root(alloc, frame(alloc, 0, None, None)?)?;
        if root.depth() < MOST_FRAMES {
            return Ok(State::new(root.push(alloc, top)?, false));
        }
        Ok(State::new(root, false))
    }

    #[test]
    fn states_are_the_same_without_places_and_anchors(rt: HostRuntime) -> Result<(), Fail> {
        let plain = state(rt.alloc(), frame(rt.alloc(), 7, None, None)?)?;
        assert!(rt; plain.same(&state(rt.alloc(), frame(rt.alloc(), 7, Some(3), Some(4))?)?));
        assert!(rt; plain.same(&plain.copy()?));
        assert!(rt; !plain.same(&state(rt.alloc(), frame(rt.alloc(), 8, None, None)?)?));
        let mut other = frame(rt.alloc(), 7, None, None)?;
        other.took_end = true;
        assert!(rt; !plain.same(&state(rt.alloc(), other)?));
        let mut other = frame(rt.alloc(), 7, None, None)?;
        other.end = EndText::of(rt.alloc(), "^AC$")?;
        assert!(rt; !plain.same(&state(rt.alloc(), other)?));
        let mut other = frame(rt.alloc(), 7, None, None)?;
        other.end = EndText::none();
        assert!(rt; !plain.same(&state(rt.alloc(), other)?));
        let mut other = frame(rt.alloc(), 7, None, None)?;
        other.content = scopes_of(rt.alloc(), "s")?;
        assert!(rt; !plain.same(&state(rt.alloc(), other)?));
        let mut other = frame(rt.alloc(), 7, None, None)?;
        other.name = scopes_of(rt.alloc(), "t")?;
        assert!(rt; !plain.same(&state(rt.alloc(), other)?));
        assert!(rt; !plain.same(&State::new(plain.stack().copy()?, true)));
        let root = Stack::root(rt.alloc(), frame(rt.alloc(), 7, None, None)?)?;
        assert!(rt; !plain.same(&State::new(root, false)));
        assert!(rt; !plain.first());
        Ok(())
    }

    #[test]
    fn a_stack_has_its_frames(rt: HostRuntime) -> Result<(), Fail> {
        let mut stack = Stack::root(rt.alloc(), frame(rt.alloc(), 0, None, None)?)?;
        assert!(rt; stack.below().is_none());
        for rule in 1..MOST_FRAMES {
            if stack.depth() < MOST_FRAMES {
                stack = stack.push(rt.alloc(), frame(rt.alloc(), rule, None, None)?)?;
            }
        }
        assert_eq!(rt; stack.depth(), MOST_FRAMES);
        assert_eq!(rt; stack.top().rule, RuleId(MOST_FRAMES - 1));
        assert_eq!(rt;
            stack.below().map(|below| below.top().rule),
            Some(RuleId(MOST_FRAMES - 2))
        );
        assert_eq!(rt; stack.top().end.text(), Some("^AB$"));
        assert!(rt; EndText::none().text().is_none());
        assert!(rt; stack.top().copy()?.same(stack.top()));
        Ok(())
    }

    #[test]
    fn rows_of_tokens_keep_what_they_are_given(rt: HostRuntime) -> Result<(), Fail> {
        let mut rows = TokenRows::new(rt.alloc());
        rows.push(Token {
            from: 0,
            to: 2,
            scopes: scopes_of(rt.alloc(), "s")?,
        })?;
        rows.push(Token {
            from: 2,
            to: 3,
            scopes: scopes_of(rt.alloc(), "s c")?,
        })?;
        let copy = rows.copy()?;
        assert_eq!(rt; copy.as_slice().len(), 2);
        let second = &copy.as_slice()[1];
        assert_eq!(rt; (second.from, second.to), (2, 3));
        assert!(rt; has_names(&second.scopes, &["s", "c"]));
        Ok(())
    }
}
