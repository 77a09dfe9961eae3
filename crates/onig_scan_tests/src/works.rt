//! A test that shows that there are no captures before the first hit.

use onig_match::Work;
use std::test::Fail;

#[test]
fn before_the_first_hit_there_are_no_captures(rt: HostRuntime) -> Result<(), Fail> {
    let work = Work::new(rt.alloc(), 8, 2)?;
    assert_eq!(rt; work.budget(), 8);
    assert_eq!(rt; work.room(), 2);
    assert_eq!(rt; work.groups(), 0);
    assert_eq!(rt; work.capture(0), None);
    Ok(())
}
