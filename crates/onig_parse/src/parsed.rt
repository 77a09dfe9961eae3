//! A pattern text that is read: its lists of items and its groups.

ghost use Rattle.std.specs.Prelude.{◌≡◌, find, map};
ghost use Rattle.syntax_defs.specs.Lengths.{group_of, number_of_name};
ghost use Rattle.syntax_defs.specs.PatternSyntax.{is_named};

use crate::reader::is_named;
use pattern_defs::ListId;
use std::marker::Model;
use syntax_defs::{GroupName, Item, Span, Target};

/// A text that is read: its lists of items, the list that is the whole, and its groups.
#[derive(Drop)]
pub(crate) struct ParsedText {
    lists: Vec<Vec<Item>>,
    top: ListId,
    groups: u32,
    names: Vec<GroupName>,
}

impl Model for ParsedText {
    ghost use Rattle.syntax_defs.specs.PatternSyntax.{Parsed};

    ghost Value = { Parsed };

    ghost use Rattle.onig_parse.specs.Reader.{parsed_of};

    ghost view = { parsed_of };
}

impl ParsedText {
    pub(crate) fn new(
        lists: Vec<Vec<Item>>,
        top: ListId,
        groups: u32,
        names: Vec<GroupName>,
    ) -> ParsedText
        ensures { result ≡ record { lists = map (λ items. items.items) lists.items; top = top; groups = groups; names = names.items } }
    {
        ParsedText {
            lists,
            top,
            groups,
            names,
        }
    }

    pub(crate) fn lists(&self) -> &[Vec<Item>]
        ensures { map (λ items. items.items) result.now ≡ self.now.lists }
    {
        self.lists.as_slice()
    }

    pub(crate) fn top(&self) -> ListId
        ensures { result ≡ self.now.top }
    {
        self.top
    }

    pub(crate) fn groups(&self) -> u32
        ensures { result ≡ self.now.groups }
    {
        self.groups
    }

    /// The number of the group of a name.
    fn number_of_name(&self, text: &[char], name: Span) -> Option<u32>
        ensures { result ≡ number_of_name (find (is_named text.now name) self.now.names) }
    {
        let known = self
            .names
            .iter()
            .find(|known| is_named(text, name, *known))?;
        Some(known.number)
    }

    /// The group that a back reference of the text speaks of, where it is there.
    pub(crate) fn group_of(&self, text: &[char], target: Target) -> Option<u32>
        ensures { result ≡ group_of text.now self.now target }
    {
        match target {
            Target::Number(n) if 0 < n && n <= self.groups => Some(n),
            Target::Number(_) => None,
            Target::Name(name) => self.number_of_name(text, name),
        }
    }
}
