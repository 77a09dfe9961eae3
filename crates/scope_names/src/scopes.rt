//! The names of the scopes at a place, in lists that share what they have in common.

ghost use Rattle.std.specs.Prelude.{◌≡◌, ◌+◌, ◌-◌, ◌<◌, ◌≤◌, ◌↔◌, [], ◌++◌, false, length, take, reverse, slice_get, slice_index, fold, Some, IfOk, IsTrue};
ghost use Rattle.std.specs.List.{filter_map};
ghost use Rattle.std.specs.Iterator.{YieldsFirstBy, item_count};
ghost use Rattle.scope_defs.specs.Scopes.{with_names, push};
ghost use Rattle.scope_defs.specs.StandardType.{type_of_name, last_or, type_of};
ghost use Rattle.scope_names.specs.Keys.{HasNoKey, keys_of, with_name};
ghost use Rattle.scope_names.specs.Numbers.{mixed, name_number, scopes_number};

use crate::keys::KeyBits;
use crate::numbers::{SEED, mixed};
use crate::piece::Piece;
use crate::shared_name::SharedName;
use scope_defs::{MOST_NAMES, StdType};
use std::alloc::{AllocError, Global};
use std::marker::Model;
use std::rc::Rc;

/// The names of the scopes at a place of a text, the outermost first. Lists that were made from one another share what
/// they have in common.
#[cycle(scopes)]
pub struct Scopes {
    top: Option<Rc<Pushed>>,
}

/// Names that were pushed at once, on the list of those below.
#[cycle(scopes)]
#[derive(Drop)]
struct Pushed {
    below: Scopes,
    /// These names, or so many of them that a list may have.
    name: SharedName,
    /// How many names the list has with these.
    len: u32,
    /// Its standard type.
    kind: StdType,
    /// The number that is made of its names.
    number: u64,
    /// The bits of their keys.
    keys: KeyBits,
}

impl Model for Scopes {
    ghost use Rattle.std.specs.Prelude.{List, ℕ, length};

    ghost Value = { List (List ℕ) };

    ghost use Rattle.scope_names.specs.View.{names_of, KeepsAll};

    ghost view = { λ scopes. names_of scopes.top };

    ghost invariant = { λ scopes. KeepsAll scopes.top };

    ghost size = { length };

    ghost use Rattle.scope_names.specs.Falls.{names_fall};

    ghost size_decreases = { λ scopes keeps. names_fall scopes keeps };
}

impl Scopes {
    /// No scopes.
    pub fn empty() -> Scopes
        ensures { result ≡ [] }
    {
        Scopes { top: None }
    }

    /// How many scopes these are.
    pub fn len(&self) -> u32
        ensures count { result ≡ length self.now }
        ensures few { result ≤ MOST_NAMES }
    {
        match &self.top {
            None => 0,
            Some(pushed) => pushed.len,
        }
    }

    pub fn is_empty(&self) -> bool
        ensures { IsTrue result ↔ (self.now ≡ []) }
    {
        self.len() == 0
    }

    /// The standard type of the last scope that sets one.
    pub fn std_type(&self) -> StdType
        ensures { result ≡ type_of self.now }
    {
        match &self.top {
            None => StdType::Other,
            Some(pushed) => pushed.kind,
        }
    }

    /// The number that is made of the names: lists with unequal numbers are unequal.
    pub fn number(&self) -> u64
        ensures { result ≡ scopes_number self.now }
    {
        match &self.top {
            None => SEED,
            Some(pushed) => pushed.number,
        }
    }

    /// The bits of the names' keys.
    fn keys(&self) -> KeyBits
        ensures { result ≡ keys_of self.now }
    {
        match &self.top {
            None => KeyBits::none(),
            Some(pushed) => pushed.keys,
        }
    }

    /// Whether one of the names may have this key, or its first part. Where not, it is told without looking at the names.
    pub fn may_have(&self, key: u64) -> bool
        ensures { (result ≡ false) → HasNoKey key self.now }
    {
        self.keys().may_have(key)
    }

    /// The same scopes, shared.
    pub fn copy(&self) -> Result<Scopes, AllocError>
        ensures { IfOk result (λ scopes. scopes ≡ self.now) }
    {
        match &self.top {
            None => Ok(Scopes::empty()),
            Some(pushed) => Ok(Scopes {
                top: Some(pushed.clone()?),
            }),
        }
    }
}

impl Drop for Scopes {
    fn drop(mut self) {
        loop {
            let Scopes { top } = self;
            match top {
                None => return,
                Some(shared) => match Rc::into_inner(shared) {
                    None => return,
                    Some(pushed) => {
                        let Pushed {
                            below,
                            name: _,
                            len: _,
                            kind: _,
                            number: _,
                            keys: _,
                        } = pushed;
                        self = below;
                    }
                },
            }
        }
    }
}

/// The front of a list that ends with the push of name `n`, and that name.
fn front_with(scopes: &Scopes, n: u32) -> (&Scopes, &str)
    requires { n < length scopes.now }
    ensures name { slice_get scopes.now n ≡ Some result.1.now }
    ensures within { n < length result.0.now }
    ensures front { take (n + 1) result.0.now ≡ take (n + 1) scopes.now }
{
    let mut at = scopes;
    while let Some(pushed) = &at.top {
        let below = pushed.below.len();
        if below <= n {
            return (at, pushed.name.name((n - below) as usize));
        }
        at = &pushed.below;
    }
    unreachable!()
}

/// The names of scopes from the last to the first, seen as the list of those that are left.
#[derive(Drop)]
pub struct NamesBack<'a> {
    scopes: &'a Scopes,
    /// How many names of these are left.
    left: u32,
}

impl<'a> Model for NamesBack<'a> {
    ghost use Rattle.std.specs.Prelude.{List, ℕ, ◌≤◌, length, reverse, take};

    ghost Value = { List (List ℕ) };

    ghost view = { λ names. reverse (take names.left names.scopes.now) };

    ghost invariant = { λ names. names.left ≤ length names.scopes.now };
}

impl<'a> Iterator for NamesBack<'a> {
    type Item = &'a str;

    ghost next_gives = { YieldsFirstBy (λ name. name.now) (λ rest. rest) };

    ghost remaining = { item_count (λ rest. rest) };

    fn next(&mut self) -> Option<&'a str> {
        if self.left == 0 {
            return None;
        }
        let (front, name) = front_with(self.scopes, self.left - 1);
        self.scopes = front;
        self.left -= 1;
        Some(name)
    }
}

/// The type of scopes with further names.
fn kind_with(kind: StdType, names: &[Piece]) -> StdType
    ensures { result ≡ last_or kind (filter_map type_of_name names.now) }
{
    let mut last = kind;
    for name in names {
        if let Some(next) = name.kind() {
            last = next;
        }
    }
    last
}

/// The number that is made of scopes with further names.
fn number_with(number: u64, names: &[Piece]) -> u64
    ensures { result ≡ fold (λ before name. mixed before (name_number name)) number names.now }
{
    let mut all = number;
    for name in names {
        all = mixed(all, name.number());
    }
    all
}

/// The bits of the keys of scopes with further names.
fn keys_with(keys: KeyBits, names: &[Piece]) -> KeyBits
    ensures { result ≡ fold with_name keys names.now }
{
    let mut all = keys;
    for name in names {
        all = all.with(name.first_key()).with(name.key());
    }
    all
}

impl Scopes {
    /// Name `n`, from 0.
    pub fn name(&self, n: u32) -> &str
        requires { n < length self.now }
        ensures { slice_get self.now n ≡ Some result.now }
    {
        front_with(self, n).1
    }

    /// The names from the last to the first.
    pub fn names_back(&self) -> NamesBack<'_>
        ensures { result ≡ reverse self.now }
    {
        NamesBack {
            scopes: self,
            left: self.len(),
        }
    }

    /// Whether these are the same names.
    pub fn same(&self, other: &Scopes) -> bool
        ensures { IsTrue result ↔ (self.now ≡ other.now) }
    {
        if self.number() != other.number() || self.len() != other.len() {
            return false;
        }
        let mut names = self.names_back();
        let mut others = other.names_back();
        while let Some(name) = names.next() {
            match others.next() {
                Some(other) if name == other => {}
                _ => return false,
            }
        }
        true
    }

    /// These scopes with names that are read already, whose bytes are shared.
    pub fn push_shared(&self, alloc: Global, name: &SharedName) -> Result<Scopes, AllocError>
        ensures { IfOk result (λ scopes. scopes ≡ with_names self.now name.now) }
    {
        let room = (MOST_NAMES - self.len()) as usize;
        let added = name.len().min(room);
        if added == 0 {
            return self.copy();
        }
        let names = name.front(added);
        let kind = kind_with(self.std_type(), names);
        let number = number_with(self.number(), names);
        let keys = keys_with(self.keys(), names);
        let len = self.len() + added as u32;
        let below = self.copy()?;
        let name = name.copy()?;
        let pushed = Rc::new(
            alloc,
            Pushed {
                below,
                name,
                len,
                kind,
                number,
                keys,
            },
        )?;
        Ok(Scopes { top: Some(pushed) })
    }

    /// These scopes with each piece of a text between spaces that isn't empty, as long as there is room.
    pub fn push(&self, alloc: Global, name: &str) -> Result<Scopes, AllocError>
        ensures { IfOk result (λ scopes. scopes ≡ push self.now name.now) }
    {
        self.push_shared(alloc, &SharedName::of(alloc, name)?)
    }
}
