//! Tests of the whole text for items that can't be kept.

ghost use Rattle.std.specs.Prelude.{◌≡◌, Some, None, is_none, map, if◌then◌else◌};
ghost use Rattle.std.specs.List.{list_any};
ghost use Rattle.syntax_defs.specs.Lengths.{earlier, late_among, late_in, late_place, length_of};

use crate::lengths::length_of;
use crate::parsed::ParsedText;
use pattern_defs::ListId;
use syntax_defs::Item;

/// The lesser place, where there is one.
fn earlier(m: Option<usize>, n: Option<usize>) -> Option<usize>
    ensures { result ≡ earlier m n }
{
    match (m, n) {
        (None, n) => n,
        (Some(m), None) => Some(m),
        (Some(m), Some(n)) => Some(m.min(n)),
    }
}

/// Whether one of these lists has an open length.
fn is_any_open(lengths: &[Option<u32>], ids: &[ListId]) -> bool
    ensures { result ≡ list_any (λ id. is_none (length_of lengths.now id)) ids.now }
{
    ids.iter().any(|id| length_of(lengths, *id).is_none())
}

fn place_where(holds: bool, at: usize) -> Option<usize>
    ensures { result ≡ (if holds then Some at else None) }
{
    if holds { Some(at) } else { None }
}

/// The place of an item that can't be kept: its group isn't there, or an alternative has an open length.
fn late_place(
    text: &[char],
    parsed: &ParsedText,
    lengths: &[Option<u32>],
    item: &Item,
) -> Option<usize>
    ensures { result ≡ late_place text.now parsed.now lengths.now item.now }
{
    match item {
        Item::Back { at, target, .. } => {
            place_where(parsed.group_of(text, *target).is_none(), *at)
        }
        Item::Behind { at, arms, .. } => place_where(is_any_open(lengths, arms.as_slice()), *at),
        _ => None,
    }
}

/// The first place of such an item in a list, or that of one before.
fn late_in(
    text: &[char],
    parsed: &ParsedText,
    lengths: &[Option<u32>],
    before: Option<usize>,
    items: &[Item],
) -> Option<usize>
    ensures { result ≡ late_in text.now parsed.now lengths.now before items.now }
{
    let mut found = before;
    for item in items {
        found = earlier(found, late_place(text, parsed, lengths, item));
    }
    found
}

/// The first place of such an item.
pub(crate) fn late_fault(
    text: &[char],
    parsed: &ParsedText,
    lengths: &[Option<u32>],
) -> Option<usize>
    ensures { result ≡ late_among text.now parsed.now lengths.now None parsed.now.lists }
{
    late_among(text, parsed, lengths, parsed.lists())
}

fn late_among(
    text: &[char],
    parsed: &ParsedText,
    lengths: &[Option<u32>],
    lists: &[Vec<Item>],
) -> Option<usize>
    ensures { result ≡ late_among text.now parsed.now lengths.now None (map (λ items. items.items) lists.now) }
{
    let mut found = None;
    for items in lists {
        found = late_in(text, parsed, lengths, found, items.as_slice());
    }
    found
}
