//! What searches found: counts of them, and a number made of all that was matched.

use onig_scan::Place;

/// What searches found: how many there were, how many of them hit and how many were spent, and a number made of all
/// that matches and their groups took.
#[derive(Clone, Copy, Debug, PartialEq, Eq)]
pub(crate) struct Tally {
    pub(crate) searches: u64,
    pub(crate) matches: u64,
    pub(crate) spent: u64,
    pub(crate) sum: u64,
}

pub(crate) const NONE_YET: Tally = Tally {
    searches: 0,
    matches: 0,
    spent: 0,
    sum: 0,
};

/// A number made of two.
pub(crate) fn mixed(hash: u64, next: u64) -> u64 {
    let hash = (hash
        ^ next
            .wrapping_add(0x9e37_79b9_7f4a_7c15)
            .wrapping_add(hash << 6)
            .wrapping_add(hash >> 2))
        .wrapping_mul(0xff51_afd7_ed55_8ccd);
    hash ^ (hash >> 33)
}

/// The ends of what a group took, or the greatest number twice where it took nothing.
pub(crate) fn ends(taken: Option<Place>) -> (u64, u64) {
    match taken {
        Some(place) => (u64::from(place.from), u64::from(place.to)),
        None => (0xffff_ffff, 0xffff_ffff),
    }
}
