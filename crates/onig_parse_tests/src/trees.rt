//! A tree that is built, not read.
use pattern_tree::{Anchor, PatNode, PatternDraft};
use std::test::Fail;

#[test]
fn a_repeat_before_an_anchor(rt: HostRuntime) -> Result<(), Fail> {
    let mut draft = PatternDraft::new(rt.alloc());
    let body = draft.push_list(vec![in rt.alloc(); PatNode::At(Anchor::First)]?)?;
    let repeat = PatNode::Repeat {
        body,
        least: 0,
        most: None,
        greedy: true,
    };
    let top = draft.push_list(vec![in rt.alloc(); repeat, PatNode::At(Anchor::End)]?)?;
    let pattern = draft.finish(top, 0);
    assert_eq!(rt; pattern.size(), 3);
    assert_eq!(rt; pattern.groups(), 0);
    assert!(rt; !pattern.is_flat());
    assert_eq!(rt; pattern.list(body).len(), 1);
    Ok(())
}
