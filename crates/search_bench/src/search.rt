//! Finds the matches of a scanner in the given lines, one behind the other.

ghost use Rattle.std.specs.Prelude.{◌≡◌, ◌≤◌, ◌<◌, ◌^◌, All, length};

use crate::tally::{Tally, ends, mixed};
use onig_match::Work;
use onig_scan::{Flags, Found, Place, Scanner};

/// Where the search for matches goes on behind one.
fn behind(whole: Option<Place>, at: u32) -> u32 {
    let Some(place) = whole else {
        return at.saturating_add(1);
    };
    if place.to > place.from && place.to > at {
        return place.to;
    }
    place.to.max(at).saturating_add(1)
}

/// A match, by the line's number, the pattern's and what all its groups took.
pub(crate) fn match_sum(row: u64, number: u64, work: &Work) -> u64 {
    let mut hash = mixed(mixed(0x123_4567, row), number);
    for group in 0..=work.groups() {
        let (from, to) = ends(work.capture(group));
        hash = mixed(mixed(hash, from), to);
    }
    hash
}

/// The first match in a line from a place on, and where the search goes on behind it.
pub(crate) fn next_match(
    scanner: &Scanner,
    work: &mut Work,
    line: &[char],
    at: u32,
    tally: &mut Tally,
) -> Option<(u32, u32)>
    requires room { All (λ tree. tree.groups ≤ work.old.room) scanner.now }
    ensures room { work.new.room ≡ work.old.room }
{
    if line.len() >= 1 << 31 || at as usize > line.len() {
        return None;
    }
    tally.searches = tally.searches.wrapping_add(1);
    let flags = Flags {
        first: true,
        anchor: Some(at),
    };
    match scanner.find(work, line, at, flags) {
        Found::Nowhere => None,
        Found::Spent { .. } => {
            tally.spent = tally.spent.wrapping_add(1);
            None
        }
        Found::At { index } => {
            tally.matches = tally.matches.wrapping_add(1);
            Some((index, behind(work.capture(0), at)))
        }
    }
}

/// All matches of a scanner in some lines. The patterns are told by these numbers.
pub(crate) fn search(
    scanner: &Scanner,
    work: &mut Work,
    lines: &[Vec<char>],
    numbers: &[u64],
    tally: &mut Tally,
)
    requires room { All (λ tree. tree.groups ≤ work.old.room) scanner.now }
{
    for (row, line) in lines.iter().enumerate() {
        let mut at = 0;
        for _ in 0..u32::MAX {
            let Some((index, next)) = next_match(scanner, work, line, at, tally) else {
                break;
            };
            let number = numbers.get(index as usize).copied().unwrap_or(0);
            tally.sum = tally.sum.wrapping_add(match_sum(row as u64, number, work));
            at = next;
        }
    }
}
