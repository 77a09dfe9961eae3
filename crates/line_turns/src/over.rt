//! What a run goes over.

use rule_table::RuleTable;
use std::alloc::Global;
use text_pos::Limits;

/// What a run goes over.
#[derive(Clone, Copy)]
pub struct Over<'a> {
    pub alloc: Global,
    pub table: &'a RuleTable,
    pub limits: Limits,
    pub text: &'a [char],
}
