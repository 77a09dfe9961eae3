//! How many visits nodes take at most.

ghost use Rattle.std.specs.Prelude.{◌≡◌, ◌<◌, ◌≤◌, ◌+◌, ◌∷◌, [], IfSome, length, take, Option};
ghost use Rattle.pattern_defs.specs.Patterns.{nodes_of, IsNode, AreNodes, AllIds, AllArms, AreBounds as IsLeastWithin};
ghost use Rattle.pattern_defs.specs.declared.nodes.PatNode.TheVariants.{Repeat};
ghost use Rattle.onig_scan.specs.Bounds.{IsBound, IsBoundOfTimes, AreBounds, AreArmBounds};

use pattern_defs::{Arm, ListId, PatNode};
use pattern_tree::Pattern;

/// How many alternatives are looked at.
pub(crate) const MOST_ARMS: usize = 64;

/// How often a repeat is looked at.
const MOST_TIMES: u32 = 8;

/// How many visits nodes take at most with what stands behind them, which takes `behind` by itself, in any text. None is
/// told where something may be repeated more than a few times.
#[cycle(bounds)]
pub(crate) fn visits_of(
    pattern: &Pattern,
    nodes: &[PatNode],
    behind: u64,
    depth: u32,
) -> Option<u64>
    requires { AreNodes (length pattern.now.lists) pattern.now.groups nodes.now }
    ensures { IfSome result (λ cost. IsBound pattern.now.lists nodes.now behind cost) }
{
    if depth == 0 {
        return None;
    }
    let Some((first, rest)) = nodes.split_first() else {
        return Some(behind);
    };
    let after = visits_of(pattern, rest, behind, depth - 1)?;
    let all = visits_of_node(pattern, first, after, depth - 1)?;
    all.checked_add(1)
}

/// The same of one node, where the visit for the node itself isn't counted.
#[cycle(bounds)]
fn visits_of_node(pattern: &Pattern, node: &PatNode, after: u64, depth: u32) -> Option<u64>
    requires { IsNode (length pattern.now.lists) pattern.now.groups node.now }
    ensures { IfSome result (λ cost. IsBound pattern.now.lists (node.now ∷ []) after (cost + 1)) }
{
    match node {
        PatNode::One(_) => Some(after),
        PatNode::At(_) => Some(after),
        PatNode::Back { .. } => Some(after),
        PatNode::Choice(ids) => visits_of_ids(pattern, ids.as_slice(), after, depth),
        PatNode::Group { body, .. } => {
            let closed = after.checked_add(1)?;
            visits_of(pattern, pattern.list(*body), closed, depth)
        }
        PatNode::Repeat { body, most, .. } => {
            let most = (*most)?;
            if most > MOST_TIMES {
                return None;
            }
            visits_of_times(pattern, *body, most, after, depth)
        }
        PatNode::Ahead { body, .. } => {
            let seen = visits_of(pattern, pattern.list(*body), 1, depth)?;
            seen.checked_add(after)
        }
        PatNode::Atomic(body) => {
            let inner = visits_of(pattern, pattern.list(*body), 1, depth)?;
            inner.checked_add(after)
        }
        PatNode::Behind { arms, .. } => {
            let seen = visits_of_arms(pattern, arms.as_slice(), depth)?;
            seen.checked_add(after)
        }
    }
}

/// The same of a list that may be done so many times yet.
#[cycle(bounds)]
fn visits_of_times(
    pattern: &Pattern,
    body: ListId,
    times: u32,
    after: u64,
    depth: u32,
) -> Option<u64>
    requires body { body.0 < length pattern.now.lists }
    requires few { times ≤ MOST_TIMES }
    ensures { IfSome result (λ cost. IsBoundOfTimes pattern.now.lists body times after cost) }
{
    if times == 0 {
        return Some(after);
    }
    let others = visits_of_times(pattern, body, times - 1, after, depth)?;
    let again = others.checked_add(1)?;
    let one = visits_of(pattern, pattern.list(body), again, depth)?;
    one.checked_add(after)
}

/// All alternatives, one after the other.
#[cycle(bounds)]
fn visits_of_ids(pattern: &Pattern, ids: &[ListId], after: u64, depth: u32) -> Option<u64>
    requires { AllIds (length pattern.now.lists) ids.now }
    ensures { IfSome result (λ cost. AreBounds pattern.now.lists ids.now after cost) }
{
    if ids.len() > MOST_ARMS {
        return None;
    }
    let mut all = 0u64;
    for id in ids {
        let one = visits_of(pattern, pattern.list(*id), after, depth)?;
        all = all.checked_add(one)?;
    }
    Some(all)
}

/// All arms of a lookbehind, one after the other.
#[cycle(bounds)]
pub(crate) fn visits_of_arms(pattern: &Pattern, arms: &[Arm], depth: u32) -> Option<u64>
    requires { AllArms (length pattern.now.lists) arms.now }
    ensures { IfSome result (λ cost. AreArmBounds pattern.now.lists arms.now cost) }
{
    if arms.len() > MOST_ARMS {
        return None;
    }
    let mut all = 0u64;
    for arm in arms {
        let one = visits_of(pattern, pattern.list(arm.body), 1, depth)?;
        all = all.checked_add(one)?;
    }
    Some(all)
}
