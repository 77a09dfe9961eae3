//! Patterns that are searched together, and two lists of them searched as one.

ghost use Rattle.std.specs.Prelude.{◌≡◌, ℕ, ◌<◌, ◌≤◌, ◌^◌, ◌++◌, ◌↔◌, All, length, map, Some, IfOk, IfSome, IsTrue};
ghost use Rattle.pattern_defs.specs.Attempt.{capture_of};
ghost use Rattle.line_defs.specs.Search.{scan};
ghost use Rattle.std.specs.Rc.{rc_value};
ghost use Rattle.canonical_patterns.specs.Canonical.{AreCodes};
ghost use Rattle.line_search.specs.Choices.{choice_of_owned, tree_of_owned, first_place, is_before};
ghost use Rattle.line_search.specs.Choices.{HaveRoom, HaveOwners};
ghost use Rattle.line_search.specs.Finds.{found_of, IfAt, IfNothing, IsOwner, IsPartFrom};

use crate::find::{Find, Match, Of};
use onig_match::Work;
use onig_scan::{Found, Scanner};
use pattern_defs::Flags;
use pattern_tree::Pattern;
use std::alloc::{AllocError, Global};
use std::marker::Model;
use std::rc::Rc;

/// A pattern, and what it belongs to.
#[derive(Drop)]
pub(crate) struct Owned {
    pub of: Of,
    pub pattern: Rc<Pattern>,
}

/// What a search finds, and the place where that was decided.
#[derive(Clone, Copy, Debug, PartialEq, Eq)]
pub(crate) struct Scan {
    pub find: Find,
    pub place: Option<u32>,
}

/// Patterns that are searched together, with what each belongs to.
#[derive(Drop)]
pub(crate) struct Choices {
    owned: Vec<Owned>,
    scanner: Scanner,
}

impl Model for Choices {
    ghost use Rattle.std.specs.Prelude.{List};
    ghost use Rattle.line_defs.specs.Search.{Choice};

    ghost Value = { List Choice };

    ghost use Rattle.line_search.specs.Scanners.{choices_of, IsScanner};

    ghost view = { choices_of };

    ghost invariant = { IsScanner };
}

/// The patterns alone.
fn patterns_of(alloc: Global, owned: &[Owned]) -> Result<Vec<Rc<Pattern>>, AllocError>
    ensures { IfOk result (λ all. map rc_value all.items ≡ map tree_of_owned owned.now) }
{
    let mut patterns = Vec::with_capacity(alloc, owned.len())?;
    for one in owned {
        patterns.push(one.pattern.clone()?)?;
    }
    Ok(patterns)
}

/// The characters of a text are codes of Unicode. Nothing is done here: what each type says is read off.
fn has_codes(text: &[char])
    ensures { AreCodes text.now }
{
    for c in text {
        let _code = *c as u32;
    }
}

/// Whether what is decided at a place comes before what is decided at the other.
fn is_before(place: Option<u32>, other: Option<u32>) -> bool
    ensures { result ≡ is_before place other }
{
    match (place, other) {
        (Some(place), Some(other)) => place <= other,
        (place, None) => place.is_some(),
        (None, Some(_)) => false,
    }
}

impl Choices {
    /// 2^32 patterns or more count as want of memory.
    pub(crate) fn of(alloc: Global, owned: Vec<Owned>) -> Result<Choices, AllocError>
        ensures { IfOk result (λ choices. choices ≡ map choice_of_owned owned.items) }
    {
        if owned.len() > u32::MAX as usize {
            return Err(AllocError);
        }
        let patterns = patterns_of(alloc, owned.as_slice())?;
        let scanner = Scanner::new(alloc, patterns.as_slice())?;
        Ok(Choices { owned, scanner })
    }

    /// Whether no pattern has more groups.
    pub(crate) fn fit(&self, groups: u32) -> bool
        ensures { IsTrue result ↔ HaveRoom groups self.now }
    {
        self.scanner.groups() <= groups
    }

    /// What the patterns find from a place on.
    pub(crate) fn find(&self, work: &mut Work, text: &[char], from: u32, flags: Flags) -> Scan
        requires short { length text.now < 2 ^ 31 }
        requires inside { from ≤ length text.now }
        requires room { HaveRoom work.old.room self.now }
        ensures budget { work.new.budget ≡ work.old.budget }
        ensures room { work.new.room ≡ work.old.room }
        ensures found { found_of result.find work.new.hit
            ≡ scan (record { text = text.now; place = from; flags = flags; budget = work.old.budget }) self.now }
        ensures place { result.place
            ≡ first_place (record { text = text.now; place = from; flags = flags; budget = work.old.budget }) self.now }
        ensures inside { IfSome result.place (λ place. (from ≤ place) × (place ≤ length text.now)) }
        ensures part { IfAt result.find (IsPartFrom from (length text.now) work.new.hit) }
        ensures owner { (rules : ℕ) → HaveOwners rules self.now → IfAt result.find (λ m. IsOwner rules m.of) }
        ensures stays { IfNothing result.find (work.new.hit ≡ work.old.hit) }
    {
        has_codes(text);
        match self.scanner.find(work, text, from, flags) {
            Found::Nowhere => Scan {
                find: Find::Nothing,
                place: None,
            },
            Found::Spent { index: _, at } => Scan {
                find: Find::Spent,
                place: Some(at),
            },
            Found::At { index } => match work.capture(0) {
                Some(whole) => Scan {
                    find: Find::At(Match {
                        of: self.owned[index as usize].of,
                        from: whole.from,
                        to: whole.to,
                    }),
                    place: Some(whole.from),
                },
                None => unreachable!(),
            },
        }
    }
}

/// What two lists of patterns find as one list. Where a match of the first comes before one of the second, it is made
/// again at its place, since `work` tells what the last match captured.
pub(crate) fn find_in_two(
    first: &Choices,
    second: &Choices,
    work: &mut Work,
    text: &[char],
    from: u32,
    flags: Flags,
) -> Find
    requires short { length text.now < 2 ^ 31 }
    requires inside { from ≤ length text.now }
    requires first { HaveRoom work.old.room first.now }
    requires second { HaveRoom work.old.room second.now }
    ensures budget { work.new.budget ≡ work.old.budget }
    ensures room { work.new.room ≡ work.old.room }
    ensures found { found_of result work.new.hit
        ≡ scan (record { text = text.now; place = from; flags = flags; budget = work.old.budget })
        (first.now ++ second.now) }
    ensures part { IfAt result (IsPartFrom from (length text.now) work.new.hit) }
    ensures owner { (rules : ℕ) → HaveOwners rules first.now → HaveOwners rules second.now →
        IfAt result (λ m. IsOwner rules m.of) }
{
    let one = first.find(work, text, from, flags);
    let two = second.find(work, text, from, flags);
    match one.place {
        Some(place) if is_before(one.place, two.place) => {
            first.find(work, text, place, flags).find
        }
        _ => two.find,
    }
}
