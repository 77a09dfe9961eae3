//! Items become the nodes of a pattern.

ghost use Rattle.std.specs.Prelude.{◌≡◌, ◌≤◌, None, drop, map, length, IfOk};
ghost use Rattle.syntax_defs.specs.Lengths.{late_fault, late_in, late_place, lengths_of};
ghost use Rattle.syntax_defs.specs.PatternMeaning.{FitsItem, FitsItems, IsSetRead, StandsFor, arm_of};
ghost use Rattle.syntax_defs.specs.Singles.{single_at};
ghost use Rattle.onig_parse.specs.KeptClasses.{AreKeptClasses};
ghost use Rattle.onig_parse.specs.Formed.{AreItems, IsFormed, IsItem, IsSingle};
ghost use Rattle.syntax_defs.specs.Limits.{most_pattern_chars};

use crate::kept::{KeptClass, kept_set};
use crate::lengths::length_of;
use crate::parsed::ParsedText;
use crate::single::read_single;
use char_sets::{CharSet, NamedSets};
use pattern_defs::{Arm, Arms, ListId, ListIds, PatNode};
use pattern_tree::{Pattern, PatternDraft};
use std::alloc::{AllocError, Global};
use syntax_defs::{Item, Options, PatternRefusal};

/// The numbers of a choice's lists.
fn copied_ids(alloc: Global, ids: &[ListId]) -> Result<ListIds, AllocError>
    ensures { IfOk result (λ copied. copied ≡ ids.now) }
{
    let mut copied = ListIds::new(alloc);
    for id in ids {
        copied.push(*id)?;
    }
    Ok(copied)
}

fn arms_of(alloc: Global, lengths: &[Option<u32>], ids: &[ListId]) -> Result<Arms, AllocError>
    ensures { IfOk result (λ arms. arms ≡ map (arm_of lengths.now) ids.now) }
{
    let mut arms = Arms::new(alloc);
    for id in ids {
        arms.push(arm_of(lengths, *id))?;
    }
    Ok(arms)
}

fn arm_of(lengths: &[Option<u32>], id: ListId) -> Arm
    ensures { result ≡ arm_of lengths.now id }
{
    Arm {
        length: length_of(lengths, id).unwrap_or(0),
        body: id,
    }
}

/// The set of a single item: that of a class is kept, and any other is read again, so that only memory may be wanting.
fn set_again(
    alloc: Global,
    sets: &mut NamedSets,
    classes: &[KeptClass],
    text: &[char],
    at: usize,
    options: Options,
    depth: u32,
) -> Result<CharSet, AllocError>
    requires short { length text.now ≤ most_pattern_chars }
    requires there { IsSingle text.now at options depth }
    requires classes { AreKeptClasses text.now classes.now }
    ensures { IfOk result (λ set. IsSetRead set (single_at options depth at (drop at text.now))) }
{
    if let Some(set) = kept_set(alloc, classes, at, options, depth)? {
        return Ok(set);
    }
    match read_single(alloc, sets, text, at, options, depth) {
        Ok((set, _)) => Ok(set),
        Err(PatternRefusal::Memory) => Err(AllocError),
        Err(_) => unreachable!("it was read before"),
    }
}

/// The node of an item.
fn lower_item(
    alloc: Global,
    sets: &mut NamedSets,
    classes: &[KeptClass],
    text: &[char],
    parsed: &ParsedText,
    lengths: &[Option<u32>],
    item: &Item,
) -> Result<PatNode, AllocError>
    requires short { length text.now ≤ most_pattern_chars }
    requires formed { IsItem text.now (length parsed.now.lists) parsed.now.groups item.now }
    requires classes { AreKeptClasses text.now classes.now }
    requires kept { late_place text.now parsed.now lengths.now item.now ≡ None }
    ensures { IfOk result (λ node. FitsItem text.now parsed.now lengths.now node item.now) }
{
    match item {
        Item::One { at, options, depth } => Ok(PatNode::One(set_again(
            alloc, sets, classes, text, *at, *options, *depth,
        )?)),
        Item::At(anchor) => Ok(PatNode::At(*anchor)),
        Item::Choice(ids) => Ok(PatNode::Choice(copied_ids(alloc, ids.as_slice())?)),
        Item::Group { number, body } => Ok(PatNode::Group {
            number: *number,
            body: *body,
        }),
        Item::Repeat {
            body,
            least,
            most,
            greedy,
        } => Ok(PatNode::Repeat {
            body: *body,
            least: *least,
            most: *most,
            greedy: *greedy,
        }),
        Item::Ahead { body, wanted } => Ok(PatNode::Ahead {
            body: *body,
            wanted: *wanted,
        }),
        Item::Behind { arms, wanted, .. } => Ok(PatNode::Behind {
            arms: arms_of(alloc, lengths, arms.as_slice())?,
            wanted: *wanted,
        }),
        Item::Atomic(body) => Ok(PatNode::Atomic(*body)),
        Item::Back { target, fold, .. } => {
            let Some(number) = parsed.group_of(text, *target) else {
                unreachable!("the group is there")
            };
            Ok(PatNode::Back {
                number,
                fold: *fold,
            })
        }
    }
}

/// The nodes of a list.
fn lower_items(
    alloc: Global,
    sets: &mut NamedSets,
    classes: &[KeptClass],
    text: &[char],
    parsed: &ParsedText,
    lengths: &[Option<u32>],
    items: &[Item],
) -> Result<Vec<PatNode>, AllocError>
    requires short { length text.now ≤ most_pattern_chars }
    requires formed { AreItems text.now (length parsed.now.lists) parsed.now.groups items.now }
    requires classes { AreKeptClasses text.now classes.now }
    requires kept { late_in text.now parsed.now lengths.now None items.now ≡ None }
    ensures { IfOk result (λ nodes. FitsItems text.now parsed.now lengths.now nodes.items items.now) }
{
    let mut nodes = Vec::new(alloc);
    for item in items {
        nodes.push(lower_item(alloc, sets, classes, text, parsed, lengths, item)?)?;
    }
    Ok(nodes)
}

/// The pattern of a text that is read, in which `late_fault` has found nothing.
pub(crate) fn lower(
    alloc: Global,
    sets: &mut NamedSets,
    classes: &[KeptClass],
    text: &[char],
    parsed: &ParsedText,
    lengths: &[Option<u32>],
) -> Result<Pattern, AllocError>
    requires short { length text.now ≤ most_pattern_chars }
    requires lengths { lengths.now ≡ lengths_of parsed.now.lists }
    requires formed { IsFormed text.now parsed.now }
    requires classes { AreKeptClasses text.now classes.now }
    requires kept { late_fault text.now parsed.now ≡ None }
    ensures { IfOk result (λ pattern. StandsFor text.now pattern parsed.now) }
{
    let mut draft = PatternDraft::new(alloc);
    draft.allow_groups(parsed.groups());
    for items in parsed.lists() {
        let nodes = lower_items(
            alloc,
            sets,
            classes,
            text,
            parsed,
            lengths,
            items.as_slice(),
        )?;
        draft.push_list(nodes)?;
    }
    Ok(draft.finish(parsed.top(), parsed.groups()))
}
