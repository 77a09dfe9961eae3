//! What misses by its first character.

ghost use Rattle.std.specs.Prelude.{◌≡◌, ◌<◌, ◌≤◌, length, true, IfSome};
ghost use Rattle.onig_match.specs.Machine.{subject};
ghost use Rattle.onig_match.specs.Sound.{BeginsElse, BeginsInGroup, MissesEarly};

use crate::runs::is_in;
use crate::searched::Searched;
use pattern_defs::{ListId, PatNode};

/// Whether nodes begin with a single character that doesn't stand at a place.
fn begins_else(nodes: &[PatNode], text: &[char], at: u32) -> bool
    ensures { (result ≡ true) → BeginsElse nodes.now text.now at }
{
    match nodes {
        [PatNode::One(set), ..] => !is_in(set, text, at),
        _ => false,
    }
}

/// The body of the group that nodes begin with.
fn group_first(nodes: &[PatNode]) -> Option<ListId>
    ensures { IfSome result (λ body. BeginsInGroup nodes.now body) }
{
    match nodes {
        [PatNode::Group { body, .. }, ..] => Some(*body),
        _ => None,
    }
}

/// After how many visits a list misses at a place by its first character: one, or two where it begins with a group.
pub(crate) fn early_miss(on: &Searched<'_>, list: ListId, at: u32) -> Option<u64>
    requires { list.0 < length on.now.pattern.now.lists }
    ensures early { IfSome result (MissesEarly (subject on.now) list at) }
    ensures few { IfSome result (λ visits. visits ≤ 2) }
{
    let nodes = on.pattern.list(list);
    if begins_else(nodes, on.text, at) {
        return Some(1);
    }
    let body = group_first(nodes)?;
    if begins_else(on.pattern.list(body), on.text, at) {
        Some(2)
    } else {
        None
    }
}
