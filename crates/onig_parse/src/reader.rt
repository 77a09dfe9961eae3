//! A pattern text that is being read from left to right.

ghost use Rattle.std.specs.Prelude.{◌≡◌, ◌+◌, ◌≤◌, [], ◌∷◌, ◌++◌, length, slice_get, IfOk, OnOk};
ghost use Rattle.std.specs.List.{list_any};
ghost use Rattle.syntax_defs.specs.PatternSyntax.{at_place, is_named, next_id, parsed_of, past, rest_of, start, with_group, with_list};
ghost use Rattle.syntax_defs.specs.Limits.{most_pattern_chars};
ghost use Rattle.onig_parse.specs.KeptClasses.{IsKeptClass, AreKeptClasses};

use crate::head::word_from;
use crate::kept::KeptClass;
use crate::parsed::ParsedText;
use pattern_defs::ListId;
use pattern_tree::counted;
use std::alloc::{AllocError, Global};
use std::marker::Model;
use syntax_defs::{GroupName, Item, Span};

/// A pattern text that is being read from left to right: the place of the next character, the lists of items that
/// have ended, how many numbered groups have begun, with their names, and the sets of the classes.
#[derive(Drop)]
pub(crate) struct Reader {
    alloc: Global,
    text: Vec<char>,
    at: usize,
    lists: Vec<Vec<Item>>,
    groups: u32,
    names: Vec<GroupName>,
    classes: Vec<KeptClass>,
}

impl Model for Reader {
    ghost use Rattle.syntax_defs.specs.PatternSyntax.{Seen};

    ghost Value = { Seen };

    ghost use Rattle.onig_parse.specs.Reader.{seen_of, IsReader};

    ghost view = { seen_of };

    ghost invariant = { IsReader };
}

impl Reader {
    pub(crate) fn new(alloc: Global, text: Vec<char>) -> Reader
        requires { length text.items ≤ most_pattern_chars }
        ensures { result ≡ start text.items }
    {
        Reader {
            alloc,
            text,
            at: 0,
            lists: Vec::new(alloc),
            groups: 0,
            names: Vec::new(alloc),
            classes: Vec::new(alloc),
        }
    }

    pub(crate) fn alloc(&self) -> Global {
        self.alloc
    }

    /// The whole text.
    pub(crate) fn text(&self) -> &[char]
        ensures text { result.now ≡ self.now.text }
        ensures short { length result.now ≤ most_pattern_chars }
    {
        self.text.as_slice()
    }

    /// The place of the next character.
    pub(crate) fn place(&self) -> usize
        ensures place { result ≡ self.now.place }
        ensures inside { result ≤ length self.now.text }
        ensures short { result ≤ most_pattern_chars }
    {
        self.at
    }

    /// What is still to be read.
    pub(crate) fn rest(&self) -> &[char]
        ensures rest { result.now ≡ rest_of self.now }
        ensures short { length result.now ≤ most_pattern_chars }
    {
        &self.text[self.at..]
    }

    /// Goes to a place, and at most to the end.
    pub(crate) fn go_to(&mut self, place: usize)
        ensures { self.new ≡ at_place place self.old }
    {
        self.at = place.min(self.text.len());
    }

    /// Goes so many characters on, and at most to the end.
    pub(crate) fn pass(&mut self, count: usize)
        ensures { self.new ≡ past count self.old }
    {
        self.go_to(self.at.saturating_add(count));
    }

    /// Ends a list, which has the next number.
    pub(crate) fn end_list(&mut self, items: Vec<Item>) -> Result<ListId, AllocError>
        ensures id { IfOk result (λ id. id ≡ next_id self.old) }
        ensures list { OnOk result (self.new ≡ with_list items.items self.old) }
    {
        let number = counted(0, self.lists.len())?;
        self.lists.push(items)?;
        Ok(ListId(number))
    }

    /// A numbered group begins.
    pub(crate) fn begin_group(&mut self, name: Option<Span>) -> Result<(), AllocError>
        ensures { OnOk result (self.new ≡ with_group name self.old) }
    {
        let number = counted(self.groups, 1)?;
        if let Some(name) = name {
            self.names.push(GroupName { name, number })?;
        }
        self.groups = number;
        Ok(())
    }

    /// How many numbered groups have begun.
    pub(crate) fn groups(&self) -> u32
        ensures { result ≡ self.now.groups }
    {
        self.groups
    }

    /// Keeps the set of a single item, where that is a class. Any other set is soon made again.
    pub(crate) fn keep_class(&mut self, class: KeptClass) -> Result<(), AllocError>
        requires { IsKeptClass self.old.text class }
        ensures { OnOk result (self.new ≡ self.old) }
    {
        if self.rest().first().copied() == Some('[') {
            self.classes.push(class)?;
        }
        Ok(())
    }

    /// What was read, whose whole is the list `top`, and the sets of its classes.
    pub(crate) fn into_parts(self, top: ListId) -> (ParsedText, Vec<KeptClass>)
        ensures parsed { result.0 ≡ parsed_of (top, self) }
        ensures classes { AreKeptClasses self.text result.1.items }
    {
        let parsed = ParsedText::new(self.lists, top, self.groups, self.names);
        (parsed, self.classes)
    }

    /// Whether a group has this name.
    pub(crate) fn has_name(&self, name: Span) -> bool
        ensures { result ≡ list_any (is_named self.now.text name) self.now.names }
    {
        self.names
            .iter()
            .any(|known| is_named(self.text(), name, known))
    }
}

/// Whether a name is that of a group.
pub(crate) fn is_named(text: &[char], name: Span, known: &GroupName) -> bool
    ensures { result ≡ is_named text.now name known.now }
{
    word_from(text, known.name.from) == word_from(text, name.from)
}
