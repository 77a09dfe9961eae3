//! A scope name with the type that it sets, and the numbers that are made of it.

ghost use Rattle.std.specs.Prelude.{◌≡◌, IfOk};
ghost use Rattle.scope_defs.specs.StandardType.{type_of_name};
ghost use Rattle.scope_names.specs.Keys.{key_of, first_key};
ghost use Rattle.scope_names.specs.Numbers.{name_number};

use crate::keys::{first_key, key_of};
use crate::numbers::name_number;
use crate::words::type_of_name;
use scope_defs::StdType;
use std::alloc::{AllocError, Global};
use std::marker::Model;
use text_pos::Name;

/// A name with what is known of it, seen as its bytes.
#[derive(Drop)]
pub(crate) struct Piece {
    text: Name,
    /// The type that it sets.
    kind: Option<StdType>,
    /// The number that is made of its bytes.
    number: u64,
    /// The number that is made of its first part.
    first: u64,
    /// The number that is made of its first two parts.
    key: u64,
}

impl Model for Piece {
    ghost use Rattle.std.specs.Prelude.{◌≡◌, List, ℕ};
    ghost use Rattle.scope_defs.specs.StandardType.{type_of_name};
    ghost use Rattle.scope_names.specs.Keys.{key_of, first_key};
    ghost use Rattle.scope_names.specs.Numbers.{name_number};

    ghost Value = { List ℕ };

    ghost view = { λ piece. piece.text };

    ghost invariant = { λ piece. (piece.kind ≡ type_of_name piece.text) × (piece.number ≡ name_number piece.text) × (piece.first ≡ first_key piece.text) × (piece.key ≡ key_of piece.text) };
}

impl Piece {
    pub(crate) fn of(alloc: Global, text: &str) -> Result<Piece, AllocError>
        ensures { IfOk result (λ piece. piece ≡ text.now) }
    {
        let kind = type_of_name(text.as_bytes());
        let number = name_number(text.as_bytes());
        let first = first_key(text.as_bytes());
        let key = key_of(text.as_bytes());
        Ok(Piece {
            text: Name::of(alloc, text)?,
            kind,
            number,
            first,
            key,
        })
    }

    pub(crate) fn text(&self) -> &str
        ensures { result.now ≡ self.now }
    {
        self.text.text()
    }

    pub(crate) fn kind(&self) -> Option<StdType>
        ensures { result ≡ type_of_name self.now }
    {
        self.kind
    }

    pub(crate) fn number(&self) -> u64
        ensures { result ≡ name_number self.now }
    {
        self.number
    }

    pub(crate) fn first_key(&self) -> u64
        ensures { result ≡ first_key self.now }
    {
        self.first
    }

    pub(crate) fn key(&self) -> u64
        ensures { result ≡ key_of self.now }
    {
        self.key
    }
}
