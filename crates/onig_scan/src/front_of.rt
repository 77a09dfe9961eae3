//! The characters without which a pattern doesn't match.

ghost use Rattle.std.specs.Prelude.{◌≡◌, ◌<◌, ◌+◌, ◌∷◌, [], IfOk, IfSome, length, take};
ghost use Rattle.pattern_defs.specs.Patterns.{nodes_of, IsNode, AreNodes, AllIds};
ghost use Rattle.pattern_defs.specs.declared.nodes.PatNode.TheVariants.{Ahead};
ghost use Rattle.onig_scan.specs.Fronts.{IsFront, AreFronts, IsFrontOfOwn, IsFrontOfRepeat, IsFrontOfAll};

use crate::bound::{MOST_ARMS, visits_of, visits_of_arms};
use crate::front::{Front, copied, joined, joined_ways, with_visits};
use pattern_defs::{ListId, PatNode};
use pattern_tree::Pattern;
use std::alloc::{AllocError, Global};

/// How many nodes deep a front is looked for.
const MOST_DEEP: u32 = 32;

/// The front of a whole pattern, where one is found.
pub(crate) fn front_of_all(alloc: Global, pattern: &Pattern) -> Result<Option<Front>, AllocError>
    ensures { IfOk result (λ o. IfSome o (λ f. IsFrontOfAll pattern.now f.set f.cost)) }
{
    match front_of(
        alloc,
        pattern,
        pattern.list(pattern.top()),
        &None,
        MOST_DEEP,
    )? {
        Some(front) if !front.stays => Ok(Some(front)),
        _ => Ok(None),
    }
}

/// The front of nodes before something, where one is found. Nodes that may take nothing hand on to what stands behind
/// them.
#[cycle(fronts)]
fn front_of(
    alloc: Global,
    pattern: &Pattern,
    nodes: &[PatNode],
    behind: &Option<Front>,
    depth: u32,
) -> Result<Option<Front>, AllocError>
    requires { AreNodes (length pattern.now.lists) pattern.now.groups nodes.now }
    ensures { IfOk result (λ o. IfSome o (λ f. IsFront pattern.now.lists nodes.now behind.now f f.cost)) }
{
    if depth == 0 {
        return Ok(None);
    }
    let Some((first, rest)) = nodes.split_first() else {
        return copied(alloc, behind);
    };
    if let PatNode::One(set) = first {
        let set = set.copy(alloc)?;
        return Ok(Some(Front {
            set,
            cost: 1,
            stays: false,
        }));
    }
    let after = front_of(alloc, pattern, rest, behind, depth - 1)?;
    let front = front_of_node(alloc, pattern, first, &after, depth - 1)?;
    Ok(with_visits(front, 1))
}

/// The front of one node before something, where the visit for the node itself isn't counted.
#[cycle(fronts)]
fn front_of_node(
    alloc: Global,
    pattern: &Pattern,
    node: &PatNode,
    after: &Option<Front>,
    depth: u32,
) -> Result<Option<Front>, AllocError>
    requires { IsNode (length pattern.now.lists) pattern.now.groups node.now }
    ensures { IfOk result (λ o. IfSome o (λ f. IsFront pattern.now.lists (node.now ∷ []) after.now f (f.cost + 1))) }
{
    match node {
        PatNode::One(_) | PatNode::Back { .. } => Ok(None),
        PatNode::At(_) => copied(alloc, after),
        PatNode::Group { body, .. } => {
            let closed = with_visits(copied(alloc, after)?, 1);
            front_of(alloc, pattern, pattern.list(*body), &closed, depth)
        }
        PatNode::Atomic(body) => front_of_own(alloc, pattern, *body, after, depth),
        PatNode::Choice(ids) => front_of_ids(alloc, pattern, ids.as_slice(), after, depth),
        PatNode::Repeat { body, least, .. } => {
            front_of_repeat(alloc, pattern, *body, *least, after, depth)
        }
        PatNode::Ahead { body, wanted } => {
            front_of_ahead(alloc, pattern, *body, *wanted, after, depth)
        }
        PatNode::Behind { arms, .. } => {
            let Some(visits) = visits_of_arms(pattern, arms.as_slice(), depth) else {
                return Ok(None);
            };
            Ok(with_visits(copied(alloc, after)?, visits))
        }
    }
}

/// The characters before alternatives.
#[cycle(fronts)]
fn front_of_ids(
    alloc: Global,
    pattern: &Pattern,
    ids: &[ListId],
    after: &Option<Front>,
    depth: u32,
) -> Result<Option<Front>, AllocError>
    requires { AllIds (length pattern.now.lists) ids.now }
    ensures { IfOk result (λ o. IfSome o (λ f. AreFronts pattern.now.lists ids.now after.now f f.cost)) }
{
    let mut all = Front::none(alloc);
    if ids.len() > MOST_ARMS {
        return Ok(None);
    }
    for id in ids {
        let Some(front) = front_of(alloc, pattern, pattern.list(*id), after, depth)? else {
            return Ok(None);
        };
        let Some(both) = joined_ways(alloc, &all, &front)? else {
            return Ok(None);
        };
        all = both;
    }
    Ok(Some(all))
}

/// The characters before a list that is run by itself and has to hit. Where it may hit and take nothing, those of what
/// stands behind it too.
#[cycle(fronts)]
fn front_of_own(
    alloc: Global,
    pattern: &Pattern,
    body: ListId,
    after: &Option<Front>,
    depth: u32,
) -> Result<Option<Front>, AllocError>
    requires { body.0 < length pattern.now.lists }
    ensures { IfOk result (λ o. IfSome o (λ f. IsFrontOfOwn pattern.now.lists body after.now f f.cost)) }
{
    let end = Some(Front::at_end(alloc));
    let Some(inner) = front_of(alloc, pattern, pattern.list(body), &end, depth)? else {
        return Ok(None);
    };
    if !inner.stays {
        return Ok(Some(inner));
    }
    match after {
        None => Ok(None),
        Some(after) => joined(alloc, &inner, after, after.stays),
    }
}

/// The characters before a lookahead. Where it is wanted, those of its body will do, if they are known; else, where its
/// visits are bounded, those of what stands behind it, and otherwise both.
#[cycle(fronts)]
fn front_of_ahead(
    alloc: Global,
    pattern: &Pattern,
    body: ListId,
    wanted: bool,
    after: &Option<Front>,
    depth: u32,
) -> Result<Option<Front>, AllocError>
    requires { body.0 < length pattern.now.lists }
    ensures { IfOk result (λ o. IfSome o (λ f. IsFront pattern.now.lists (Ahead body wanted ∷ []) after.now f (f.cost + 1))) }
{
    if wanted {
        if let Some(front) = front_of_own(alloc, pattern, body, after, depth)? {
            return Ok(Some(front));
        }
    }
    let Some(visits) = visits_of(pattern, pattern.list(body), 1, depth) else {
        return front_of_both(alloc, pattern, body, wanted, after, depth);
    };
    Ok(with_visits(copied(alloc, after)?, visits))
}

/// The characters before a lookahead whose visits aren't bounded: where none of those of its body stands, these are.
#[cycle(fronts)]
fn front_of_both(
    alloc: Global,
    pattern: &Pattern,
    body: ListId,
    wanted: bool,
    after: &Option<Front>,
    depth: u32,
) -> Result<Option<Front>, AllocError>
    requires { body.0 < length pattern.now.lists }
    ensures { IfOk result (λ o. IfSome o (λ f. IsFront pattern.now.lists (Ahead body wanted ∷ []) after.now f (f.cost + 1))) }
{
    let end = Some(Front::at_end(alloc));
    let Some(inner) = front_of(alloc, pattern, pattern.list(body), &end, depth)? else {
        return Ok(None);
    };
    match after {
        None => Ok(None),
        Some(after) => joined(alloc, &inner, after, after.stays),
    }
}

/// The characters before a repeat: those of its body, and of what follows it where it may take nothing.
#[cycle(fronts)]
fn front_of_repeat(
    alloc: Global,
    pattern: &Pattern,
    body: ListId,
    least: u32,
    after: &Option<Front>,
    depth: u32,
) -> Result<Option<Front>, AllocError>
    requires { body.0 < length pattern.now.lists }
    ensures { IfOk result (λ o. IfSome o (λ f. IsFrontOfRepeat pattern.now.lists body least after.now f f.cost)) }
{
    let again = with_visits(copied(alloc, after)?, 1);
    let Some(inner) = front_of(alloc, pattern, pattern.list(body), &again, depth)? else {
        return Ok(None);
    };
    if least > 0 {
        return Ok(Some(inner));
    }
    match after {
        None => Ok(None),
        Some(after) => joined_ways(alloc, &inner, after),
    }
}
