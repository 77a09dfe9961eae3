//! A rule of a grammar: its kind, patterns, scope texts, captures and active list.

use crate::scope_text::ScopeText;
use pattern_tree::Pattern;
use scope_defs::RuleId;
use std::rc::Rc;
use text_pos::{Items, Name};

/// What a rule is, as vscode-textmate's rule.ts has it.
#[derive(Clone, Copy, Debug, PartialEq, Eq)]
pub enum RuleKind {
    Match,
    BeginEnd,
    BeginWhile,
    Group,
}

/// A rule's pattern.
#[derive(Drop)]
pub enum Slot {
    /// None that ever matches: it is missing, or its text was refused.
    Never,
    Read(Rc<Pattern>),
    /// One that is read only with a begin's captures in its text, and then with at most so many groups.
    Later { text: Name, groups: u32 },
}

/// What is done with what a group captured: its scope texts, and the rule whose patterns run over it.
#[derive(Drop)]
pub struct RuleCapture {
    pub number: u32,
    pub name: Option<ScopeText>,
    pub content: Option<ScopeText>,
    pub inner: Option<RuleId>,
}

/// Captures by number.
pub type RuleCaptures = Items<RuleCapture>;

/// Numbers of rules.
pub type RuleIds = Items<RuleId>;

/// A rule.
#[derive(Drop)]
pub struct Rule {
    pub kind: RuleKind,
    /// The scope text of the whole.
    pub name: Option<ScopeText>,
    /// The scope text of what stands inside.
    pub content: Option<ScopeText>,
    /// The pattern of `match` or `begin`.
    pub start: Slot,
    /// The pattern of `end` or `while`.
    pub finish: Slot,
    /// Whether the end is tried after the patterns inside.
    pub finish_last: bool,
    /// The captures of `match` or `begin`.
    pub start_captures: RuleCaptures,
    /// The captures of `end` or `while`.
    pub finish_captures: RuleCaptures,
    /// The rules that are searched inside, without the end.
    pub active: RuleIds,
}
