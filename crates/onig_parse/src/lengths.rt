//! The lengths of items and lists in a lookbehind.

ghost use Rattle.std.specs.Prelude.{◌≡◌, ◌≤◌, ◌<◌, ◌^◌, map, IfOk};
ghost use Rattle.std.specs.List.{list_all};
ghost use Rattle.syntax_defs.specs.Lengths.{capped, choice_length, is_length, item_length, items_length, length_of, lengths_of, plus, repeat_length, same_length, times};

use pattern_defs::ListId;
use std::alloc::{AllocError, Global};
use syntax_defs::{Item, MOST_LENGTH};

/// A length, or none where it is open. One above the limit counts as open.
fn capped(n: u64) -> Option<u32>
    ensures { result ≡ capped n }
{
    if n <= u64::from(MOST_LENGTH) {
        Some(n as u32)
    } else {
        None
    }
}

fn plus(m: Option<u32>, n: Option<u32>) -> Option<u32>
    ensures { result ≡ plus m n }
{
    match (m, n) {
        (Some(m), Some(n)) => capped(u64::from(m) + u64::from(n)),
        _ => None,
    }
}

fn times(m: Option<u32>, n: u32) -> Option<u32>
    ensures { result ≡ times m n }
{
    match m {
        Some(m) => capped(u64::from(m) * u64::from(n)),
        None => None,
    }
}

/// The length of a list that has ended.
pub(crate) fn length_of(lengths: &[Option<u32>], id: ListId) -> Option<u32>
    ensures { result ≡ length_of lengths.now id }
{
    match lengths.get(id.0 as usize) {
        Some(length) => *length,
        None => None,
    }
}

fn is_length(n: u32, length: Option<u32>) -> bool
    ensures { result ≡ is_length n length }
{
    match length {
        Some(m) => m == n,
        None => false,
    }
}

/// Alternatives inside a lookbehind have one length, or an open one.
fn choice_length(lengths: &[Option<u32>], ids: &[ListId]) -> Option<u32>
    ensures { result ≡ choice_length lengths.now ids.now }
{
    let [first, rest @ ..] = ids else {
        return None;
    };
    same_length(lengths, length_of(lengths, *first), rest)
}

/// A length, where all of these lists have it.
fn same_length(lengths: &[Option<u32>], length: Option<u32>, ids: &[ListId]) -> Option<u32>
    ensures { result ≡ same_length lengths.now length ids.now }
{
    match length {
        Some(n) if are_all(lengths, n, ids) => length,
        _ => None,
    }
}

fn are_all(lengths: &[Option<u32>], n: u32, ids: &[ListId]) -> bool
    ensures { result ≡ list_all (λ id. is_length n (length_of lengths.now id)) ids.now }
{
    ids.iter().all(|id| is_length(n, length_of(lengths, *id)))
}

fn repeat_length(body: Option<u32>, least: u32, most: Option<u32>) -> Option<u32>
    ensures { result ≡ repeat_length body least most }
{
    match most {
        Some(most) if most == least => times(body, least),
        _ => None,
    }
}

/// The length of an item in a lookbehind.
fn item_length(lengths: &[Option<u32>], item: &Item) -> Option<u32>
    ensures { result ≡ item_length lengths.now item.now }
{
    match item {
        Item::One { .. } => Some(1),
        Item::At(_) | Item::Ahead { .. } | Item::Behind { .. } => Some(0),
        Item::Choice(ids) => choice_length(lengths, ids.as_slice()),
        Item::Group { body, .. } => length_of(lengths, *body),
        Item::Repeat {
            body,
            least,
            most,
            ..
        } => repeat_length(length_of(lengths, *body), *least, *most),
        Item::Atomic(body) => length_of(lengths, *body),
        Item::Back { .. } => None,
    }
}

/// The length of a list of items in a lookbehind.
fn items_length(lengths: &[Option<u32>], items: &[Item]) -> Option<u32>
    ensures { result ≡ items_length lengths.now items.now }
{
    let mut sum = Some(0);
    for item in items {
        sum = plus(sum, item_length(lengths, item));
    }
    sum
}

/// The length of each list.
pub(crate) fn lengths_of(alloc: Global, lists: &[Vec<Item>]) -> Result<Vec<Option<u32>>, AllocError>
    ensures { IfOk result (λ lengths. lengths.items ≡ lengths_of (map (λ items. items.items) lists.now)) }
{
    let mut lengths = Vec::new(alloc);
    for items in lists {
        lengths.push(items_length(&lengths, items.as_slice()))?;
    }
    Ok(lengths)
}
