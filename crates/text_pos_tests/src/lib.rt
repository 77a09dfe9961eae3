//! Tests of `text_pos`: each call with ample memory, and what it answers.
#![tactic(auto)]

#[cfg(test)]
mod tests {
    use std::test::Fail;
    use text_pos::{Bytes, Chars, Kinds, Name};

    #[test]
    fn lists_and_names_keep_what_they_are_given(rt: HostRuntime) -> Result<(), Fail> {
        let mut bytes = Bytes::of(rt.alloc(), b"ab")?;
        bytes.push(b'c')?;
        bytes.append(b"de")?;
        assert_eq!(rt; bytes.as_slice(), b"abcde".as_slice());
        let mut chars = Chars::of(rt.alloc(), &['a', '\u{e9}'])?;
        chars.push('c')?;
        assert_eq!(rt; chars.as_slice(), ['a', '\u{e9}', 'c'].as_slice());
        assert_eq!(rt; Name::of(rt.alloc(), "caf\u{e9}")?.text(), "caf\u{e9}");
        Ok(())
    }

    #[test]
    fn sets_have_the_kinds_of_their_parts(rt: HostRuntime) {
        let brackets = Kinds::one(0).with(Kinds::one(63));
        let braces = Kinds::one(63);
        for (k, has) in [
            (0, true),
            (1, false),
            (62, false),
            (63, true),
            (64, false),
            (127, false),
        ] {
            assert_eq!(rt; brackets.has(k), has, "kind {k}");
        }
        assert!(rt; brackets.meets(braces));
        assert!(rt; !brackets.without(braces).meets(braces));
        assert!(rt; brackets.without(braces).has(0));
        assert!(rt; Kinds::empty().without(braces) == Kinds::empty());
    }
}
