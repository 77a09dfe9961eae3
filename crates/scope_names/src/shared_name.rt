//! The names of a scope text, which are read once and shared by lists of scopes.

ghost use Rattle.std.specs.Prelude.{◌≡◌, ◌<◌, ◌≤◌, [], ◌∷◌, ◌++◌, length, take, filter, slice_get, Some, IfOk, OnOk};
ghost use Rattle.scope_defs.specs.Scopes.{has_characters, pieces};

use crate::piece::Piece;
use std::alloc::{AllocError, Global};
use std::marker::Model;
use std::rc::Rc;

/// The names of a text, which lists of scopes share: the pieces between spaces that aren't empty. A rule's name is read
/// once and then pushed without copying its bytes.
#[derive(Drop)]
pub struct SharedName {
    pieces: Rc<Vec<Piece>>,
}

impl Model for SharedName {
    ghost use Rattle.std.specs.Prelude.{List, ℕ};

    ghost Value = { List (List ℕ) };

    ghost view = { λ name. name.pieces.value.items };
}

/// Adds a piece that stands between spaces, where it isn't empty.
fn add_piece(alloc: Global, all: &mut Vec<Piece>, piece: &str) -> Result<(), AllocError>
    ensures { OnOk result (all.new.items ≡ all.old.items ++ filter has_characters (piece.now ∷ [])) }
{
    if piece.is_empty() {
        return Ok(());
    }
    all.push(Piece::of(alloc, piece)?)?;
    Ok(())
}

/// The names of a text.
fn pieces_of(alloc: Global, text: &str) -> Result<Vec<Piece>, AllocError>
    ensures { IfOk result (λ all. all.items ≡ pieces text.now) }
{
    let mut all = Vec::new(alloc);
    let mut rest = text;
    while let Some((piece, behind)) = rest.split_once(' ') {
        add_piece(alloc, &mut all, piece)?;
        rest = behind;
    }
    add_piece(alloc, &mut all, rest)?;
    Ok(all)
}

impl SharedName {
    pub fn of(alloc: Global, text: &str) -> Result<SharedName, AllocError>
        ensures { IfOk result (λ name. name ≡ pieces text.now) }
    {
        Ok(SharedName {
            pieces: Rc::new(alloc, pieces_of(alloc, text)?)?,
        })
    }

    /// The same names, shared.
    pub fn copy(&self) -> Result<SharedName, AllocError>
        ensures { IfOk result (λ name. name ≡ self.now) }
    {
        Ok(SharedName {
            pieces: self.pieces.clone()?,
        })
    }

    /// How many names these are.
    pub fn len(&self) -> usize
        ensures { result ≡ length self.now }
    {
        self.pieces.len()
    }

    /// Name `n`, from 0.
    pub fn name(&self, n: usize) -> &str
        requires { n < length self.now }
        ensures { slice_get self.now n ≡ Some result.now }
    {
        self.pieces[n].text()
    }

    /// The first names.
    pub(crate) fn front(&self, count: usize) -> &[Piece]
        requires { count ≤ length self.now }
        ensures { result.now ≡ take count self.now }
    {
        &self.pieces[..count]
    }
}
