//! The sets of classes, kept from their one reading.

ghost use Rattle.std.specs.Prelude.{◌≡◌, ◌≤◌, ℕ, List, IsTrue, IfOk, IfSome, drop, length};
ghost use Rattle.syntax_defs.specs.PatternMeaning.{IsSetRead};
ghost use Rattle.syntax_defs.specs.Singles.{single_at};
ghost use Rattle.onig_parse.specs.KeptClasses.{AreKeptClasses};

use char_sets::CharSet;
use std::alloc::{AllocError, Global};
use syntax_defs::Options;

/// The set of a class that was read at this place, under these options and inside so many forms.
#[derive(Drop)]
pub(crate) struct KeptClass {
    pub(crate) at: usize,
    pub(crate) options: Options,
    pub(crate) depth: u32,
    pub(crate) set: CharSet,
}

fn is_same(a: Options, b: Options) -> bool
    ensures { IsTrue result → a ≡ b }
{
    a.any_case == b.any_case && a.dot_all == b.dot_all && a.spaced == b.spaced
}

/// How many classes stand before the place, where they rise.
fn count_before(classes: &[KeptClass], at: usize) -> usize
    ensures { result ≤ length classes.now }
{
    let mut low = 0;
    let mut high = classes.len();
    while low < high {
        let mid = low + (high - low) / 2;
        if classes[mid].at < at {
            low = mid + 1;
        } else {
            high = mid;
        }
    }
    low
}

/// The set of the class at a place, where one was read there.
pub(crate) fn kept_set(
    alloc: Global,
    classes: &[KeptClass],
    at: usize,
    options: Options,
    depth: u32,
) -> Result<Option<CharSet>, AllocError>
    ensures { (text : List ℕ) → AreKeptClasses text classes.now
        → IfOk result (λ found. IfSome found (λ set. IsSetRead set (single_at options depth at (drop at text)))) }
{
    let Some(class) = classes.get(count_before(classes, at)) else {
        return Ok(None);
    };
    if class.at == at && is_same(class.options, options) && class.depth == depth {
        return Ok(Some(class.set.copy(alloc)?));
    }
    Ok(None)
}
