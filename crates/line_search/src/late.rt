//! Ends whose texts are made of captures, of which the last one read is kept.

ghost use Rattle.std.specs.Prelude.{◌≡◌, [], unwrap_or, None, Some, option_and_then, IfOk, IfSome, OnOk};
ghost use Rattle.std.specs.Option.{option_copied};
ghost use Rattle.canonical_patterns.specs.Canonical.{canonical};
ghost use Rattle.canonical_patterns.specs.ReadTrees.{read_tree};
ghost use Rattle.line_defs.specs.Search.{OfEnd, choice_of, with_groups};
ghost use Rattle.line_search.specs.Choices.{HaveRoom};

use crate::choices::{Choices, Owned};
use crate::find::Of;
use onig_parse::PatternReader;
use pattern_tree::Pattern;
use scope_stack::EndText;
use std::alloc::{AllocError, Global};
use std::marker::Model;
use std::rc::Rc;
use syntax_defs::PatternRefusal;

/// The end pattern whose text is made of captures that was searched last, read from its text. Contracts see the text.
#[derive(Drop)]
pub(crate) struct LateEnd {
    alloc: Global,
    reader: PatternReader,
    text: EndText,
    choices: Choices,
}

impl Model for LateEnd {
    ghost use Rattle.std.specs.Prelude.{Option, List, ℕ};

    ghost Value = { Option (List ℕ) };

    ghost use Rattle.line_search.specs.Late.{text_of, IsLateEnd};

    ghost view = { text_of };

    ghost invariant = { IsLateEnd };
}

/// No pattern.
fn no_choices(alloc: Global) -> Result<Choices, AllocError>
    ensures { IfOk result (λ choices. choices ≡ []) }
{
    Choices::of(alloc, Vec::new(alloc))
}

/// The pattern of an end alone.
fn end_choice(alloc: Global, pattern: Pattern) -> Result<Choices, AllocError>
    ensures { IfOk result (λ choices. choices ≡ choice_of OfEnd (Some (canonical pattern))) }
{
    let mut all = Vec::new(alloc);
    all.push(Owned {
        of: Of::End,
        pattern: Rc::new(alloc, pattern)?,
    })?;
    Choices::of(alloc, all)
}

/// The pattern of a text, if it can be read.
fn read_end(alloc: Global, reader: &mut PatternReader, text: &str) -> Result<Choices, AllocError>
    ensures { IfOk result (λ choices. choices ≡ choice_of OfEnd (read_tree text.now)) }
{
    match reader.read(text) {
        Ok(pattern) => end_choice(alloc, pattern),
        Err(PatternRefusal::Memory) => Err(AllocError),
        Err(_) => no_choices(alloc),
    }
}

impl LateEnd {
    /// None yet.
    pub(crate) fn none(alloc: Global) -> Result<LateEnd, AllocError>
        ensures { IfOk result (λ late. late ≡ None) }
    {
        Ok(LateEnd {
            alloc,
            reader: PatternReader::new(alloc),
            text: EndText::none(),
            choices: no_choices(alloc)?,
        })
    }

    /// Goes over to the pattern of a text. Where it is the one of before, nothing is read.
    pub(crate) fn turn_to(&mut self, end: &EndText) -> Result<(), AllocError>
        ensures { OnOk result (self.new ≡ end.now) }
    {
        if self.text.same(end) {
            return Ok(());
        }
        let text = end.copy()?;
        let choices = match text.text() {
            None => no_choices(self.alloc)?,
            Some(text) => read_end(self.alloc, &mut self.reader, text)?,
        };
        self.text = text;
        self.choices = choices;
        Ok(())
    }

    /// The pattern, if it has at most so many groups.
    pub(crate) fn within(&self, groups: u32) -> Option<&Choices>
        ensures choices { unwrap_or (option_copied result) []
            ≡ choice_of OfEnd (option_and_then (with_groups groups) (option_and_then read_tree self.now)) }
        ensures room { IfSome (option_copied result) (HaveRoom groups) }
    {
        if self.choices.fit(groups) {
            Some(&self.choices)
        } else {
            None
        }
    }
}
