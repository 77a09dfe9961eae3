//! The kind of a rule, and its patterns, which are read here or are left to be read later.

ghost use Rattle.std.specs.Prelude.{◌≡◌, ◌+◌, ◌<◌, ◌^◌, ◌∷◌, [], IfOk, OnOk, option_to_list};
ghost use Rattle.std.specs.List.{count_by, filter};
ghost use Rattle.canonical_patterns.specs.ReadTrees.{read_tree};
ghost use Rattle.rule_table.specs.Views.{kind_of, slot_of};
ghost use Rattle.grammar_json.specs.FileViews.{texts_of};
ghost use Rattle.grammar_defs.specs.FileRules.{Texts};
ghost use Rattle.graph_defs.specs.Slots.{kind_of as file_kind, is_later, later_groups, slot_by, start_slot, finish_slot, start_of, finish_of};
ghost use Rattle.graph_defs.specs.GraphMeaning.{is_unread, is_read_now, pattern_texts};

use grammar_json::RawRule;
use graph_defs::MOST_LATER_GROUPS;
use onig_parse::PatternReader;
use rule_table::{RuleKind, Slot};
use std::alloc::{AllocError, Global};
use std::rc::Rc;
use syntax_defs::PatternRefusal;
use text_pos::Name;

/// What kind a rule is.
pub(crate) fn kind_of(rule: &RawRule) -> RuleKind
    ensures { kind_of result ≡ file_kind (texts_of rule.now) }
{
    if rule.single.is_some() {
        RuleKind::Match
    } else if rule.begin.is_some() {
        if rule.keep.is_some() {
            RuleKind::BeginWhile
        } else {
            RuleKind::BeginEnd
        }
    } else {
        RuleKind::Group
    }
}

/// Whether a backslash stands directly before a digit.
fn is_later(text: &[u8]) -> bool
    ensures { result ≡ is_later text.now }
{
    let mut escaped = false;
    for byte in text {
        if escaped && byte.is_ascii_digit() {
            return true;
        }
        escaped = *byte == b'\\';
    }
    false
}

/// How many groups a text that is read later may have.
fn later_groups(text: &[u8]) -> u32
    ensures { result ≡ later_groups text.now }
{
    let count = text.iter().filter(|c| **c == b'(' || **c == b'\\').count();
    (count as u64).min(MOST_LATER_GROUPS) as u32
}

/// The patterns of a rule.
#[derive(Drop)]
pub(crate) struct RuleSlots {
    pub start: Slot,
    pub finish: Slot,
}

/// Reads the patterns of rules, and counts the texts that can't be read.
#[derive(Drop)]
pub(crate) struct Patterns {
    alloc: Global,
    reader: PatternReader,
    unread: u32,
}

impl Patterns {
    pub fn new(alloc: Global) -> Patterns
        ensures { result.unread ≡ 0 }
    {
        Patterns {
            alloc,
            reader: PatternReader::new(alloc),
            unread: 0,
        }
    }

    pub fn unread(&self) -> u32
        ensures { result ≡ self.now.unread }
    {
        self.unread
    }

    fn read(&mut self, text: &str) -> Result<Slot, AllocError>
        requires { self.old.unread + 1 < 2 ^ 32 }
        ensures slot { IfOk result (λ s. slot_of s ≡ slot_by (read_tree text.now)) }
        ensures unread { OnOk result (self.new.unread ≡ self.old.unread + count_by is_unread (text.now ∷ [])) }
    {
        match self.reader.read(text) {
            Ok(pattern) => Ok(Slot::Read(Rc::new(self.alloc, pattern)?)),
            Err(PatternRefusal::Memory) => Err(AllocError),
            Err(_) => {
                self.unread += 1;
                Ok(Slot::Never)
            }
        }
    }

    /// The pattern of `match` or `begin`.
    fn start(&mut self, text: &Option<Name>) -> Result<Slot, AllocError>
        requires { self.old.unread + 1 < 2 ^ 32 }
        ensures slot { IfOk result (λ s. slot_of s ≡ start_slot text.now) }
        ensures unread { OnOk result (self.new.unread ≡ self.old.unread + count_by is_unread (option_to_list text.now)) }
    {
        match text {
            Some(text) => self.read(text.text()),
            None => Ok(Slot::Never),
        }
    }

    /// The pattern of `end` or `while`.
    fn finish(&mut self, text: &Option<Name>) -> Result<Slot, AllocError>
        requires { self.old.unread + 1 < 2 ^ 32 }
        ensures slot { IfOk result (λ s. slot_of s ≡ finish_slot text.now) }
        ensures unread { OnOk result (self.new.unread ≡ self.old.unread + count_by is_unread (filter is_read_now (option_to_list text.now))) }
    {
        match text {
            Some(text) => {
                let text = text.text();
                if is_later(text.as_bytes()) {
                    Ok(Slot::Later {
                        text: Name::of(self.alloc, text)?,
                        groups: later_groups(text.as_bytes()),
                    })
                } else {
                    self.read(text)
                }
            }
            None => Ok(Slot::Never),
        }
    }

    /// The patterns of a rule. All its texts are read, also those that its kind has no use for.
    pub fn slots(&mut self, rule: &RawRule, kind: RuleKind) -> Result<RuleSlots, AllocError>
        requires { self.old.unread + 4 < 2 ^ 32 }
        ensures start { IfOk result (λ s. slot_of s.start ≡ start_of (kind_of kind) (texts_of rule.now)) }
        ensures finish { IfOk result (λ s. slot_of s.finish ≡ finish_of (kind_of kind) (texts_of rule.now)) }
        ensures unread { OnOk result (self.new.unread ≡ self.old.unread + count_by is_unread (pattern_texts (texts_of rule.now))) }
    {
        let single = self.start(&rule.single)?;
        let begin = self.start(&rule.begin)?;
        let finish = self.finish(&rule.finish)?;
        let keep = self.finish(&rule.keep)?;
        Ok(slots_of(kind, single, begin, finish, keep))
    }
}

/// Of a rule's patterns, those of its kind.
fn slots_of(kind: RuleKind, single: Slot, begin: Slot, finish: Slot, keep: Slot) -> RuleSlots
    ensures start { (t : Texts) → slot_of single ≡ start_slot t.single → slot_of begin ≡ start_slot t.begin → slot_of result.start ≡ start_of (kind_of kind) t }
    ensures finish { (t : Texts) → slot_of finish ≡ finish_slot t.finish → slot_of keep ≡ finish_slot t.keep → slot_of result.finish ≡ finish_of (kind_of kind) t }
{
    match kind {
        RuleKind::Match => RuleSlots {
            start: single,
            finish: Slot::Never,
        },
        RuleKind::BeginEnd => RuleSlots {
            start: begin,
            finish,
        },
        RuleKind::BeginWhile => RuleSlots {
            start: begin,
            finish: keep,
        },
        RuleKind::Group => RuleSlots {
            start: Slot::Never,
            finish: Slot::Never,
        },
    }
}
