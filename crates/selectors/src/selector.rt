//! A selector of scopes: how it is read, its entries with their priorities, and whether they hold.

ghost use Rattle.std.specs.Prelude.{◌≡◌, ◌<◌, length, slice_index_or, IfOk, IfSome, MatchResult};
ghost use Rattle.scope_defs.specs.Selectors.{holds};
ghost use Rattle.scope_defs.specs.SelectorSyntax.{entries_of, entry_at};
ghost use Rattle.selectors.specs.Meanings.{IsKept};
ghost use Rattle.selectors.specs.Needs.{Needs};
ghost use Rattle.selectors.specs.Refused.{IsRead, Explains};

use crate::needs::{Needed, needed_keys};
use crate::reader::read_signs;
use crate::refusal::SelectorRefusal;
use crate::sign::KeptEntry;
use crate::verdict::signs_hold;
use scope_names::Scopes;
use std::alloc::{AllocError, Global};
use std::marker::Model;
use text_pos::{Items, Name};

/// A selector of scopes, seen as its text.
#[derive(Drop)]
pub struct Selector {
    text: Name,
    entries: Items<KeptEntry>,
}

impl Model for Selector {
    ghost use Rattle.std.specs.Prelude.{◌≡◌, List, ℕ, Ok};
    ghost use Rattle.selectors.specs.Machine.{read_kept};

    ghost Value = { List ℕ };

    ghost view = { λ selector. selector.text };

    ghost invariant = { λ selector. read_kept selector.text ≡ Ok selector.entries };
}

fn entry_in(entries: &[KeptEntry], n: usize) -> &KeptEntry
    requires { n < length entries.now }
    ensures { result.now ≡ slice_index_or entries.now n result.now }
{
    &entries[n]
}

impl Selector {
    /// Reads a selector. A text that is none is refused at the first character that no selector has behind what stands
    /// before it, or at its end; or before that at an operand in more than 100 parentheses and minus signs.
    pub fn read(alloc: Global, text: &str) -> Result<Selector, SelectorRefusal>
        ensures { MatchResult result (λ selector. IsRead text.now selector) (λ refusal. Explains text.now refusal) }
    {
        match read_signs(alloc, text.as_bytes())? {
            Err(at) => Err(SelectorRefusal::Syntax { at }),
            Ok(entries) => Ok(Selector {
                text: Name::of(alloc, text)?,
                entries,
            }),
        }
    }

    /// How many entries it has.
    pub fn entries(&self) -> u64
        ensures { result ≡ length (entries_of self.now) }
    {
        self.entries.as_slice().len() as u64
    }

    /// An entry, from 0, as it is kept.
    fn kept(&self, entry: u64) -> &KeptEntry
        requires { entry < length (entries_of self.now) }
        ensures { IsKept result.now (entry_at self.now entry) }
    {
        entry_in(self.entries.as_slice(), entry as usize)
    }

    /// The priority of an entry, from 0: -1 for `L:`, 1 for `R:`, else 0.
    pub fn priority(&self, entry: u64) -> i8
        requires { entry < length (entries_of self.now) }
        ensures { result ≡ (entry_at self.now entry).priority }
    {
        self.kept(entry).priority
    }

    /// Whether an entry holds of scopes.
    pub fn holds(&self, entry: u64, scopes: &Scopes) -> bool
        requires { entry < length (entries_of self.now) }
        ensures { result ≡ holds (entry_at self.now entry).matcher scopes.now }
    {
        let kept = self.kept(entry);
        signs_hold(kept.signs.as_slice(), scopes)
    }

    /// Keys that scopes need for an entry to hold, where it is known that they need some.
    pub fn needed_keys(&self, alloc: Global, entry: u64) -> Result<Option<Needed>, AllocError>
        requires { entry < length (entries_of self.now) }
        ensures { IfOk result (λ needed. IfSome needed (Needs (entry_at self.now entry).matcher)) }
    {
        let kept = self.kept(entry);
        needed_keys(alloc, kept.signs.as_slice())
    }
}
