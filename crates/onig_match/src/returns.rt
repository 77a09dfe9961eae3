//! Going back, and the ends of nested runs.

ghost use Rattle.std.specs.Prelude.{◌≡◌, ◌+◌, ◌<◌, ◌≤◌, ◌^◌, [], ◌∷◌, List, length, drop, filter, nat_le, slice_get, Some, IfSome, MatchOption};
ghost use Rattle.pattern_defs.specs.declared.nodes.Arm.{Arm};
ghost use Rattle.pattern_defs.specs.Attempt.{Hit, Miss};
ghost use Rattle.onig_match.specs.Machine.{subject, ids_at, arms_at, carried, with_entry};
ghost use Rattle.onig_match.specs.Sound.{IsSound, IsResume, HasRoom, Leads, Returns, PassesWays, PassesEarly, IsNextArm};

use crate::area::{Area, go, start_of};
use crate::cells::NodeAt;
use crate::early::early_miss;
use crate::entries::{Entry, Passed, Resume, Step, Visited};
use crate::searched::Searched;
use pattern_defs::{Arm, ListId, PatNode};
use pattern_tree::Pattern;

fn id_at(ids: &[ListId], way: usize) -> Option<ListId>
    ensures value { result ≡ slice_get ids.now way }
    ensures next { IfSome result (λ _. way + 1 < 2 ^ 64) }
{
    ids.get(way).copied()
}

/// An alternative of a node.
fn alternative(pattern: &Pattern, node: NodeAt, way: usize) -> Option<ListId>
    requires { node.list.0 < length pattern.now.lists }
    ensures value { result ≡ slice_get (ids_at pattern.now.lists node) way }
    ensures there { IfSome result (λ id. id.0 < length pattern.now.lists) }
    ensures next { IfSome result (λ _. way + 1 < 2 ^ 64) }
{
    let nodes = pattern.list(node.list);
    if node.index >= nodes.len() {
        return None;
    }
    match &nodes[node.index] {
        PatNode::Choice(ids) => id_at(ids.as_slice(), way),
        _ => None,
    }
}

/// The first arm from a number on that isn't longer than a place, and its number.
fn first_within(arms: &[Arm], arm: usize, at: u32) -> Option<(usize, Arm)>
    ensures next { IsNextArm arms.now arm at result }
    ensures small { IfSome result (λ found. found.0 + 1 < 2 ^ 64) }
{
    for k in arm..arms.len() {
        let one = arms[k];
        if one.length <= at {
            return Some((k, one));
        }
    }
    None
}

/// The same of the arms of a node.
fn arm_within(pattern: &Pattern, node: NodeAt, arm: usize, at: u32) -> Option<(usize, Arm)>
    requires { node.list.0 < length pattern.now.lists }
    ensures next { IsNextArm (arms_at pattern.now.lists node) arm at result }
    ensures small { IfSome result (λ found. found.0 + 1 < 2 ^ 64) }
    ensures there { IfSome result (λ found. found.1.body.0 < length pattern.now.lists) }
{
    let nodes = pattern.list(node.list);
    if node.index >= nodes.len() {
        return None;
    }
    match &nodes[node.index] {
        PatNode::Behind { arms, .. } => first_within(arms.as_slice(), arm, at),
        _ => None,
    }
}

/// An alternative from the number `way` on, and how many visits those before it took, which miss at once.
#[derive(Clone, Copy, Debug, PartialEq, Eq)]
struct Ways {
    way: usize,
    more: u64,
}

/// More visits than any budget has.
const MANY: u64 = 0x1_0000_0000;

/// The first alternative of a node from a number on that doesn't miss at once.
fn pass_ways(on: &Searched<'_>, node: NodeAt, way: usize, at: u32) -> Ways
    requires { node.list.0 < length on.now.pattern.now.lists }
    ensures { PassesWays (subject on.now) (ids_at on.now.pattern.now.lists node) at way result.way result.more }
{
    let mut ways = Ways { way, more: 0 };
    while ways.more < MANY {
        let Some(id) = alternative(on.pattern, node, ways.way) else {
            return ways;
        };
        let Some(more) = early_miss(on, id, at) else {
            return ways;
        };
        ways.way += 1;
        ways.more += more;
    }
    ways
}

/// An entry without the alternatives that miss at once.
fn pass_early(on: &Searched<'_>, entry: Entry) -> Passed
    requires { IsResume on.now.pattern.now entry.cells entry.resume }
    ensures { PassesEarly (subject on.now) entry result }
{
    let Resume::Alternatives { node, way, next } = entry.resume else {
        return Passed { entry, more: 0 };
    };
    let ways = pass_ways(on, node, way, entry.at);
    let resume = Resume::Alternatives {
        node,
        way: ways.way,
        next,
    };
    Passed {
        entry: Entry { resume, ..entry },
        more: ways.more,
    }
}

impl Area {
    /// Going back to an entry. Alternatives that miss at once are passed in the same step.
    pub(crate) fn go_back(&mut self, on: &Searched<'_>, entry: Entry) -> Visited
        requires sound { IsSound on.now (with_entry self.old entry) }
        requires room { HasRoom (with_entry self.old entry) 0 }
        ensures { Returns on.now (with_entry self.old entry)
            (λ left. carried (subject on.now) (with_entry self.old entry) (Miss left)) self.new result }
    {
        let passed = pass_early(on, entry);
        let step = self.after_miss(on, passed.entry);
        Visited {
            step,
            more: passed.more,
        }
    }

    /// Where what was tried above an entry fails: everything is as it was at the entry, and the next way is tried.
    fn after_miss(&mut self, on: &Searched<'_>, entry: Entry) -> Step
        requires sound { IsSound on.now (with_entry self.old entry) }
        requires room { HasRoom (with_entry self.old entry) 0 }
        ensures { Leads on.now 0 (with_entry self.old entry)
            (λ left. carried (subject on.now) (with_entry self.old entry) (Miss left)) self.new result }
    {
        self.rewind(on, entry.cells, entry.trail);
        let at = entry.at;
        match entry.resume {
            Resume::Other(rest) => go(rest, at),
            Resume::Alternatives { node, way, next } => {
                match alternative(on.pattern, node, way) {
                    Some(id) => {
                        let way = way + 1;
                        self.enter(Resume::Alternatives { node, way, next }, at);
                        go(start_of(id, next), at)
                    }
                    None => Step::Failed,
                }
            }
            Resume::AfterAhead { wanted, rest } => {
                if wanted { Step::Failed } else { go(rest, at) }
            }
            Resume::AfterBehind {
                node,
                arm,
                wanted,
                rest,
            } => match arm_within(on.pattern, node, arm, at) {
                Some((k, one)) => {
                    let resume = Resume::AfterBehind {
                        node,
                        arm: k + 1,
                        wanted,
                        rest,
                    };
                    self.enter(resume, at);
                    go(start_of(one.body, 0), at - one.length)
                }
                None => { if wanted { Step::Failed } else { go(rest, at) } }
            },
            Resume::AfterAtomic(_) => Step::Failed,
            Resume::GiveBack { more, rest } => {
                if more == 0 {
                    return go(rest, at);
                }
                let more = more - 1;
                self.enter(Resume::GiveBack { more, rest }, at.saturating_sub(1));
                go(rest, at)
            }
        }
    }

    /// Where what was tried above an entry ends at a place: other ways are dropped, and an attempt of its own has its
    /// answer.
    pub(crate) fn after_hit(&mut self, on: &Searched<'_>, entry: Entry, end: u32) -> Step
        requires sound { IsSound on.now (with_entry self.old entry) }
        requires end { end ≤ length on.now.text.now }
        ensures { Leads on.now 0 (with_entry self.old entry)
            (λ left. carried (subject on.now) (with_entry self.old entry) (Hit end self.old.captures.items left))
            self.new result }
    {
        self.cells.cut(entry.cells);
        match entry.resume {
            Resume::Other(_) => Step::Found(end),
            Resume::Alternatives { .. } => Step::Found(end),
            Resume::AfterAhead { wanted, rest } => {
                if wanted {
                    go(rest, entry.at)
                } else {
                    Step::Failed
                }
            }
            Resume::AfterBehind { wanted, rest, .. } => {
                if wanted {
                    go(rest, entry.at)
                } else {
                    Step::Failed
                }
            }
            Resume::AfterAtomic(rest) => go(rest, end),
            Resume::GiveBack { .. } => Step::Found(end),
        }
    }
}
