//! Where a back reference leads.

ghost use Rattle.std.specs.Prelude.{◌≡◌, ◌+◌, ◌<◌, ◌≤◌, ◌^◌, ◌-◌, length, drop, nat_eq, slice_range, map};
ghost use Rattle.std.specs.List.{starts_with};
ghost use Rattle.std.specs.Char.{to_ascii_lowercase};
ghost use Rattle.pattern_defs.specs.Attempt.{folded, stands_again};
ghost use Rattle.onig_match.specs.Machine.{step_back};
ghost use Rattle.onig_match.specs.Sound.{IsTaken};

use crate::area::go;
use crate::cells::Rest;
use crate::entries::Step;
use crate::searched::Searched;
use pattern_defs::Place;

/// Whether a text begins with another in any ASCII case.
fn begins_in_any_case(text: &[char], part: &[char]) -> bool
    ensures { result ≡ starts_with nat_eq (map to_ascii_lowercase text.now) (map to_ascii_lowercase part.now) }
{
    if part.len() > text.len() {
        return false;
    }
    for (k, c) in part.iter().enumerate() {
        if text[k].to_ascii_lowercase() != c.to_ascii_lowercase() {
            return false;
        }
    }
    true
}

/// Whether what stands at one place stands at another.
fn is_again(text: &[char], taken: Place, at: u32, fold: bool) -> bool
    requires from { taken.from ≤ length text.now }
    requires to { taken.to ≤ length text.now }
    requires at { at ≤ length text.now }
    ensures { result ≡ stands_again fold text.now taken at }
{
    let width = taken.to.saturating_sub(taken.from) as usize;
    let from = taken.from as usize;
    let here = &text[at as usize..];
    let part = &text[from..from + width];
    if fold {
        begins_in_any_case(here, part)
    } else {
        here.starts_with(part)
    }
}

/// Where a back reference to what a group took leads.
pub(crate) fn steps_back(
    on: &Searched<'_>,
    taken: Option<Place>,
    fold: bool,
    rest: Rest,
    at: u32,
) -> Step
    requires taken { IsTaken (length on.now.text.now) taken }
    requires at { at ≤ length on.now.text.now }
    requires short { length on.now.text.now < 2 ^ 31 }
    ensures { result ≡ step_back fold on.now.text.now taken rest at }
{
    match taken {
        Some(place) => {
            if is_again(on.text, place, at, fold) {
                go(rest, at + place.to.saturating_sub(place.from))
            } else {
                Step::Failed
            }
        }
        None => Step::Failed,
    }
}
