//! An injection: an entry of a selector with its priority, and the rule that is searched where it holds.

use scope_defs::RuleId;
use selectors::Selector;
use std::rc::Rc;
use text_pos::Items;

/// An entry of a selector, from 0, with its priority, and the rule that is searched besides others where it holds.
#[derive(Drop)]
pub struct Injection {
    pub priority: i8,
    pub selector: Rc<Selector>,
    pub entry: u64,
    pub rule: RuleId,
}

/// Injections in order.
pub type Injections = Items<Injection>;
