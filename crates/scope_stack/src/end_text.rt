//! The text of a frame's end with a begin's captures in it, which copies share.

ghost use Rattle.std.specs.Prelude.{◌≡◌, ◌↔◌, Some, None, IfOk, IsTrue};
ghost use Rattle.std.specs.Option.{option_copied};
ghost use Rattle.scope_stack.specs.Numbers.{end_number};

use scope_names::numbers::name_number;
use std::alloc::{AllocError, Global};
use std::marker::Model;
use std::rc::Rc;
use text_pos::Name;

/// A text with the number that is made of it.
#[derive(Drop)]
struct Numbered {
    text: Name,
    number: u64,
}

/// The text of a frame's end with a begin's captures in it, or none. Copies share it.
#[derive(Drop)]
pub struct EndText {
    shared: Option<Rc<Numbered>>,
}

impl Model for EndText {
    ghost use Rattle.std.specs.Prelude.{Option, List, ℕ};

    ghost Value = { Option (List ℕ) };

    ghost use Rattle.scope_stack.specs.EndTexts.{text_of, KeepsNumber};

    ghost view = { λ end. text_of end.shared };

    ghost invariant = { λ end. KeepsNumber end.shared };
}

impl EndText {
    pub fn none() -> EndText
        ensures { result ≡ None }
    {
        EndText { shared: None }
    }

    pub fn of(alloc: Global, text: &str) -> Result<EndText, AllocError>
        ensures { IfOk result (λ end. end ≡ Some text.now) }
    {
        let number = name_number(text.as_bytes());
        let text = Name::of(alloc, text)?;
        let shared = Rc::new(alloc, Numbered { text, number })?;
        Ok(EndText {
            shared: Some(shared),
        })
    }

    /// The same text, shared.
    pub fn copy(&self) -> Result<EndText, AllocError>
        ensures { IfOk result (λ end. end ≡ self.now) }
    {
        match &self.shared {
            None => Ok(EndText::none()),
            Some(shared) => Ok(EndText {
                shared: Some(shared.clone()?),
            }),
        }
    }

    /// The text, where there is one.
    pub fn text(&self) -> Option<&str>
        ensures { option_copied result ≡ self.now }
    {
        match &self.shared {
            None => None,
            Some(shared) => Some(shared.text.text()),
        }
    }

    /// The number that is made of it.
    pub(crate) fn number(&self) -> u64
        ensures { result ≡ end_number self.now }
    {
        match &self.shared {
            None => 0,
            Some(shared) => shared.number,
        }
    }

    /// Whether both are the same text, or none.
    pub fn same(&self, other: &EndText) -> bool
        ensures { IsTrue result ↔ (self.now ≡ other.now) }
    {
        match (self.text(), other.text()) {
            (None, None) => true,
            (Some(text), Some(other)) => text == other,
            _ => false,
        }
    }
}
