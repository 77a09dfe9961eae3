//! Rules and captures as a grammar's file has them, before includes are resolved.

ghost use Rattle.std.specs.Prelude.{◌≡◌, [], ◌∷◌, ◌++◌, OnOk, OnErr};
ghost use Rattle.grammar_json.specs.FileViews.{entry_list, entry_then, capture_list, capture_then, if_there, joined};
ghost use Rattle.grammar_defs.specs.FileRules.{nothing};
ghost use Rattle.grammar_defs.specs.GrammarShape.{or_nothing};

use std::alloc::{AllocError, Global};
use std::marker::Model;
use text_pos::Name;

/// A rule as its file has it, before includes are resolved. The keys are those of TextMate grammars.
#[cycle(file_rules)]
#[derive(Debug, Drop)]
pub struct RawRule {
    pub name: Option<Name>,
    /// `contentName`
    pub content: Option<Name>,
    /// `match`
    pub single: Option<Name>,
    pub begin: Option<Name>,
    /// `end`
    pub finish: Option<Name>,
    /// `while`
    pub keep: Option<Name>,
    pub include: Option<Name>,
    pub captures: Option<Captures>,
    pub begin_captures: Option<Captures>,
    pub end_captures: Option<Captures>,
    pub while_captures: Option<Captures>,
    /// `applyEndPatternLast`
    pub finish_last: bool,
    pub patterns: Option<Entries>,
}

/// A member of a list of rules.
#[cycle(file_rules)]
#[derive(Debug, Drop)]
pub enum Entry {
    /// What another rule stands for, by its name.
    Include(Name),
    Rule(RawRule),
}

/// What is done with what a group captured: its scope texts, and rules that run over it.
#[cycle(file_rules)]
#[derive(Debug, Drop)]
pub struct Capture {
    pub number: u32,
    pub name: Option<Name>,
    pub content: Option<Name>,
    pub patterns: Option<Entries>,
}

/// A list of rules.
#[cycle(file_rules)]
#[derive(Debug, Drop)]
pub struct Entries {
    pub(crate) items: Vec<Entry>,
}

impl Model for Entries {
    ghost use Rattle.grammar_defs.specs.FileRules.{FileList, weight};
    ghost use Rattle.grammar_defs.specs.FileRulesCode.{file_list_code};

    ghost Value = { FileList };

    ghost coded = { file_list_code };

    ghost use Rattle.grammar_json.specs.FileViews.{entry_list};

    ghost view = { λ e. entry_list e.items.items };

    ghost size = { weight };

    ghost use Rattle.std.proofs.Common.{arith};
    ghost use Rattle.grammar_json.specs.FileFalls.{entries_fall};

    ghost size_decreases = { λ a h. entries_fall a.items.items };
}

impl Entries {
    pub fn new(alloc: Global) -> Entries
        ensures { result ≡ nothing }
    {
        Entries {
            items: Vec::new(alloc),
        }
    }

    /// The list, an empty one where there is none.
    #[tactic(auto, using(crate::proofs::CountLemmas::list_is_there))]
    pub(crate) fn or_new(alloc: Global, found: Option<Entries>) -> Entries
        ensures { result ≡ or_nothing (if_there found) }
    {
        match found {
            Some(Entries { items }) => Entries { items },
            None => Entries::new(alloc),
        }
    }

    /// Adds a member at the end.
    #[tactic(auto, using(crate::proofs::MemberLemmas::entry_list_more))]
    pub fn push(&mut self, item: Entry) -> Result<(), AllocError>
        ensures ok { OnOk result (self.new ≡ joined self.old (entry_then item nothing)) }
        ensures err { OnErr result (self.new ≡ self.old) }
    {
        self.items.push(item)?;
        Ok(())
    }

    /// The list of these members.
    pub(crate) fn of_items(items: Vec<Entry>) -> Entries
        ensures { result ≡ entry_list items.items }
    {
        Entries { items }
    }

    pub fn as_slice(&self) -> &[Entry]
        ensures { entry_list result.now ≡ self.now }
    {
        self.items.as_slice()
    }
}

/// Captures by number.
#[cycle(file_rules)]
#[derive(Debug, Drop)]
pub struct Captures {
    pub(crate) items: Vec<Capture>,
}

impl Model for Captures {
    ghost use Rattle.grammar_defs.specs.FileRules.{FileList, weight};
    ghost use Rattle.grammar_defs.specs.FileRulesCode.{file_list_code};

    ghost Value = { FileList };

    ghost coded = { file_list_code };

    ghost use Rattle.grammar_json.specs.FileViews.{capture_list};

    ghost view = { λ c. capture_list c.items.items };

    ghost size = { weight };

    ghost use Rattle.std.proofs.Common.{arith};
    ghost use Rattle.grammar_json.specs.FileFalls.{captures_fall};

    ghost size_decreases = { λ a h. captures_fall a.items.items };
}

impl Captures {
    pub fn new(alloc: Global) -> Captures
        ensures { result ≡ nothing }
    {
        Captures {
            items: Vec::new(alloc),
        }
    }

    /// Adds a capture at the end.
    #[tactic(auto, using(crate::proofs::MemberLemmas::capture_list_more))]
    pub fn push(&mut self, item: Capture) -> Result<(), AllocError>
        ensures ok { OnOk result (self.new ≡ joined self.old (capture_then item nothing)) }
        ensures err { OnErr result (self.new ≡ self.old) }
    {
        self.items.push(item)?;
        Ok(())
    }

    /// The list of these captures.
    pub(crate) fn of_items(items: Vec<Capture>) -> Captures
        ensures { result ≡ capture_list items.items }
    {
        Captures { items }
    }

    pub fn as_slice(&self) -> &[Capture]
        ensures { capture_list result.now ≡ self.now }
    {
        self.items.as_slice()
    }
}
