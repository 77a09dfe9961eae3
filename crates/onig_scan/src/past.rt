//! The characters of which a pattern needs one before a place.

ghost use Rattle.std.specs.Prelude.{◌≡◌, ◌<◌, ◌+◌, ◌∷◌, [], Bool, IfOk, IfSome, length, take};
ghost use Rattle.pattern_defs.specs.Patterns.{NodeLists, nodes_of, IsNode, AreNodes, AllIds, AllArms};
ghost use Rattle.pattern_defs.specs.declared.nodes.PatNode.TheVariants.{One, At, Behind};
ghost use Rattle.onig_scan.specs.Pasts.{IsPast, ArePasts, IsPassing, IsPastOfAll};

use crate::bound::{MOST_ARMS, visits_of, visits_of_arms};
use crate::front::{Front, joined_ways, with_visits};
use char_sets::CharSet;
use pattern_defs::{Anchor, Arm, ListId, PatNode};
use pattern_tree::Pattern;
use std::alloc::{AllocError, Global};

/// How many nodes deep it is looked.
const MOST_DEEP: u32 = 32;

/// The characters of which one stands before a place wherever a pattern matches there, where they are found; where
/// `stays`, the text may begin there too. Where `inside`, this is asked of places between two word characters alone.
pub(crate) fn past_of_all(
    alloc: Global,
    pattern: &Pattern,
    inside: bool,
) -> Result<Option<Front>, AllocError>
    ensures { IfOk result (λ o. IfSome o (λ f. IsPastOfAll inside pattern.now f)) }
{
    past_of(
        alloc,
        pattern,
        pattern.list(pattern.top()),
        inside,
        MOST_DEEP,
    )
}

/// The same of nodes. Those that take nothing hand on to what stands behind them.
#[cycle(pasts)]
fn past_of(
    alloc: Global,
    pattern: &Pattern,
    nodes: &[PatNode],
    inside: bool,
    depth: u32,
) -> Result<Option<Front>, AllocError>
    requires { AreNodes (length pattern.now.lists) pattern.now.groups nodes.now }
    ensures { IfOk result (λ o. IfSome o (λ f. IsPast inside pattern.now.lists nodes.now f f.cost)) }
{
    if depth == 0 {
        return Ok(None);
    }
    let Some((first, rest)) = nodes.split_first() else {
        return Ok(None);
    };
    if let Some(past) = past_of_node(alloc, pattern, first, inside, depth - 1)? {
        return Ok(Some(past));
    }
    let Some(visits) = visits_to_pass(pattern, first) else {
        return Ok(None);
    };
    let past = past_of(alloc, pattern, rest, inside, depth - 1)?;
    Ok(with_visits(past, visits))
}

/// The same of one node.
#[cycle(pasts)]
fn past_of_node(
    alloc: Global,
    pattern: &Pattern,
    node: &PatNode,
    inside: bool,
    depth: u32,
) -> Result<Option<Front>, AllocError>
    requires { IsNode (length pattern.now.lists) pattern.now.groups node.now }
    ensures { IfOk result (λ o. IfSome o (λ f. IsPast inside pattern.now.lists (node.now ∷ []) f f.cost)) }
{
    match node {
        PatNode::One(_) | PatNode::Back { .. } => Ok(None),
        PatNode::At(anchor) => past_of_anchor(alloc, *anchor, inside),
        PatNode::Group { body, .. } => {
            let past = past_of(alloc, pattern, pattern.list(*body), inside, depth)?;
            Ok(with_visits(past, 1))
        }
        PatNode::Atomic(body) => {
            let past = past_of(alloc, pattern, pattern.list(*body), inside, depth)?;
            Ok(with_visits(past, 1))
        }
        PatNode::Choice(ids) => {
            let past = past_of_ids(alloc, pattern, ids.as_slice(), inside, depth)?;
            Ok(with_visits(past, 1))
        }
        PatNode::Repeat { body, least, .. } => {
            if *least == 0 {
                return Ok(None);
            }
            let past = past_of(alloc, pattern, pattern.list(*body), inside, depth)?;
            Ok(with_visits(past, 1))
        }
        PatNode::Ahead { body, wanted } => {
            if !*wanted {
                return Ok(None);
            }
            let past = past_of(alloc, pattern, pattern.list(*body), inside, depth)?;
            Ok(with_visits(past, 1))
        }
        PatNode::Behind { arms, wanted } => past_of_arms(alloc, pattern, arms.as_slice(), *wanted),
    }
}

/// The same of alternatives.
#[cycle(pasts)]
fn past_of_ids(
    alloc: Global,
    pattern: &Pattern,
    ids: &[ListId],
    inside: bool,
    depth: u32,
) -> Result<Option<Front>, AllocError>
    requires { AllIds (length pattern.now.lists) ids.now }
    ensures { IfOk result (λ o. IfSome o (λ f. ArePasts inside pattern.now.lists ids.now f f.cost)) }
{
    let mut all = Front::none(alloc);
    if ids.len() > MOST_ARMS {
        return Ok(None);
    }
    for id in ids {
        let Some(past) = past_of(alloc, pattern, pattern.list(*id), inside, depth)? else {
            return Ok(None);
        };
        let Some(both) = joined_ways(alloc, &all, &past)? else {
            return Ok(None);
        };
        all = both;
    }
    Ok(Some(all))
}

/// The same of a place that holds or doesn't.
fn past_of_anchor(alloc: Global, anchor: Anchor, inside: bool) -> Result<Option<Front>, AllocError>
    ensures { (lists : NodeLists) → IfOk result (λ o. IfSome o (λ f. IsPast inside lists (At anchor ∷ []) f f.cost)) }
{
    match anchor {
        Anchor::LineStart => {
            let set = CharSet::one(alloc, '\n')?;
            Ok(Some(Front {
                set,
                cost: 1,
                stays: true,
            }))
        }
        Anchor::WordEdge => {
            if inside {
                Ok(Some(Front {
                    set: CharSet::empty(alloc),
                    cost: 1,
                    stays: false,
                }))
            } else {
                Ok(None)
            }
        }
        _ => Ok(None),
    }
}

/// The single character that an arm is, where it is no more than that.
fn char_of_arm<'a>(pattern: &'a Pattern, arm: &Arm) -> Option<&'a CharSet>
    requires { arm.now.body.0 < length pattern.now.lists }
    ensures { IfSome result (λ set. (arm.now.length ≡ 1) × (nodes_of pattern.now.lists arm.now.body ≡ One set.now ∷ [])) }
{
    if arm.length != 1 {
        return None;
    }
    match pattern.list(arm.body) {
        [PatNode::One(set)] => Some(set),
        _ => None,
    }
}

/// The same of a lookbehind of one character.
fn past_of_arms(
    alloc: Global,
    pattern: &Pattern,
    arms: &[Arm],
    wanted: bool,
) -> Result<Option<Front>, AllocError>
    requires { AllArms (length pattern.now.lists) arms.now }
    ensures { (inside : Bool) → IfOk result (λ o. IfSome o (λ f. IsPast inside pattern.now.lists (Behind arms.now wanted ∷ []) f f.cost)) }
{
    let [arm] = arms else {
        return Ok(None);
    };
    let Some(set) = char_of_arm(pattern, arm) else {
        return Ok(None);
    };
    if wanted {
        let set = set.copy(alloc)?;
        Ok(Some(Front {
            set,
            cost: 3,
            stays: false,
        }))
    } else {
        let set = set.complement(alloc)?;
        Ok(Some(Front {
            set,
            cost: 3,
            stays: true,
        }))
    }
}

/// How many visits a node that takes nothing takes at most before what stands behind it.
fn visits_to_pass(pattern: &Pattern, node: &PatNode) -> Option<u64>
    requires { IsNode (length pattern.now.lists) pattern.now.groups node.now }
    ensures { IfSome result (λ visits. IsPassing pattern.now.lists node.now visits) }
{
    match node {
        PatNode::At(_) => Some(1),
        PatNode::Ahead { body, .. } => {
            let seen = visits_of(pattern, pattern.list(*body), 1, MOST_DEEP)?;
            seen.checked_add(1)
        }
        PatNode::Behind { arms, .. } => {
            let seen = visits_of_arms(pattern, arms.as_slice(), MOST_DEEP)?;
            seen.checked_add(1)
        }
        _ => None,
    }
}
