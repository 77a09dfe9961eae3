//! Named sets and their complements, each made when first asked for and then shared.

ghost use Rattle.std.specs.Prelude.{◌≡◌, ℕ, Bool, IsTrue, IfOk};
ghost use Rattle.char_sets.specs.Named.{in_named, in_named_if};
ghost use Rattle.char_sets.specs.Ranges.{IsSetOf};

use crate::char_set::CharSet;
use crate::named::{NamedSet, numbers_of};
use std::alloc::{AllocError, Global};
use std::marker::Model;

/// A named set or, where `negated`, its complement, once it is made.
#[derive(Debug, Drop)]
struct KnownSet {
    name: NamedSet,
    negated: bool,
    set: CharSet,
}

/// Sets that have names, and their complements. Each is made when it is asked for the first time, and whoever asks for
/// it again shares it.
#[derive(Debug, Drop)]
pub struct NamedSets {
    known: Vec<KnownSet>,
}

impl Model for NamedSets {
    ghost use Rattle.char_sets.specs.KnownSets.{AreKnown};

    ghost Value = { Unit {0} };

    ghost view = { λ s. tt };

    ghost invariant = { λ s. AreKnown s.known.items };
}

/// Whether two names name the same set.
fn is_same(a: NamedSet, b: NamedSet) -> bool
    ensures { IsTrue result → (c : ℕ) → in_named a c ≡ in_named b c }
{
    match (a, b) {
        (NamedSet::Category(a), NamedSet::Category(b)) => a.number() == b.number(),
        (NamedSet::Group(a), NamedSet::Group(b)) => numbers_of(a) == numbers_of(b),
        (NamedSet::Digit, NamedSet::Digit)
        | (NamedSet::Word, NamedSet::Word)
        | (NamedSet::Space, NamedSet::Space)
        | (NamedSet::Xdigit, NamedSet::Xdigit)
        | (NamedSet::Alpha, NamedSet::Alpha)
        | (NamedSet::Alnum, NamedSet::Alnum)
        | (NamedSet::Upper, NamedSet::Upper)
        | (NamedSet::Lower, NamedSet::Lower)
        | (NamedSet::Blank, NamedSet::Blank)
        | (NamedSet::Cntrl, NamedSet::Cntrl)
        | (NamedSet::Punct, NamedSet::Punct)
        | (NamedSet::Graph, NamedSet::Graph)
        | (NamedSet::Print, NamedSet::Print)
        | (NamedSet::Ascii, NamedSet::Ascii) => true,
        _ => false,
    }
}

/// A named set or, where `negated`, its complement.
fn made(alloc: Global, name: NamedSet, negated: bool) -> Result<CharSet, AllocError>
    ensures { IfOk result (λ s. IsSetOf s (in_named_if negated name)) }
{
    let set = CharSet::named(alloc, name)?;
    if negated {
        return set.complement(alloc);
    }
    Ok(set)
}

impl NamedSets {
    /// With no set made yet.
    pub fn new(alloc: Global) -> NamedSets {
        NamedSets {
            known: Vec::new(alloc),
        }
    }

    /// A named set or, where `negated`, its complement.
    pub fn get(
        &mut self,
        alloc: Global,
        name: NamedSet,
        negated: bool,
    ) -> Result<CharSet, AllocError>
        ensures { IfOk result (λ s. IsSetOf s (in_named_if negated name)) }
    {
        for known in &self.known {
            if known.negated == negated && is_same(known.name, name) {
                return known.set.copy(alloc);
            }
        }
        let set = made(alloc, name, negated)?;
        let copy = set.copy(alloc)?;
        self.known.push(KnownSet { name, negated, set })?;
        Ok(copy)
    }
}
