//! What the capture entries of a match take in the last hit.

ghost use Rattle.std.specs.Prelude.{◌≡◌, ℕ, ◌++◌, length, IfOk, IfSome, OnOk};
ghost use Rattle.pattern_defs.specs.Attempt.{capture_of};
ghost use Rattle.onig_match.specs.Works.{IsPart};
ghost use Rattle.line_output.specs.Taken.{taken_at, taken_by, takens_of};

use crate::names::names_in;
use onig_match::Work;
use pattern_defs::Place;
use rule_table::{RuleCapture, RuleCaptures};
use scope_defs::RuleId;
use scope_names::SharedName;
use std::alloc::{AllocError, Global};

/// A capture that takes something, with the names of its entry and the rule whose patterns run over it.
#[derive(Drop)]
pub struct Taken {
    pub place: Place,
    pub name: Option<SharedName>,
    pub content: Option<SharedName>,
    pub inner: Option<RuleId>,
}

impl Taken {
    /// What an entry takes at a place.
    fn at(
        alloc: Global,
        entry: &RuleCapture,
        place: Place,
        text: &[char],
        work: &Work,
    ) -> Result<Taken, AllocError>
        requires { (n : ℕ) → IfSome (capture_of work.now.hit n) (IsPart (length text.now)) }
        ensures { IfOk result (λ taken. taken ≡ taken_at text.now work.now.hit entry.now place) }
    {
        Ok(Taken {
            place,
            name: names_in(alloc, &entry.name, text, work)?,
            content: names_in(alloc, &entry.content, text, work)?,
            inner: entry.inner,
        })
    }
}

/// Adds what an entry takes, where that isn't empty.
fn add_taken(
    alloc: Global,
    all: &mut Vec<Taken>,
    entry: &RuleCapture,
    text: &[char],
    work: &Work,
) -> Result<(), AllocError>
    requires { (n : ℕ) → IfSome (capture_of work.now.hit n) (IsPart (length text.now)) }
    ensures { OnOk result (all.new.items ≡ all.old.items ++ taken_by text.now work.now.hit entry.now) }
{
    match work.capture(entry.number) {
        None => Ok(()),
        Some(place) => {
            if place.from == place.to {
                return Ok(());
            }
            all.push(Taken::at(alloc, entry, place, text, work)?)?;
            Ok(())
        }
    }
}

/// What the entries of a match take in the last hit, in order.
pub fn takens_of(
    alloc: Global,
    entries: &RuleCaptures,
    text: &[char],
    work: &Work,
) -> Result<Vec<Taken>, AllocError>
    requires { (n : ℕ) → IfSome (capture_of work.now.hit n) (IsPart (length text.now)) }
    ensures { IfOk result (λ all. all.items ≡ takens_of text.now work.now.hit entries.now) }
{
    let mut all = Vec::new(alloc);
    for entry in entries.as_slice() {
        add_taken(alloc, &mut all, entry, text, work)?;
    }
    Ok(all)
}
