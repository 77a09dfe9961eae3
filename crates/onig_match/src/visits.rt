//! What a visit does.

ghost use Rattle.std.specs.Prelude.{◌≡◌, true, false, not, ℕ, suc, ◌+◌, ◌-◌, ◌<◌, ◌≤◌, ◌^◌, length, slice_get, Option, Some, None, IsSome};
ghost use Rattle.char_sets.specs.Ranges.{in_set};
ghost use Rattle.pattern_defs.specs.declared.nodes.PatNode.{PatNode};
ghost use Rattle.pattern_defs.specs.declared.nodes.PatNode.TheVariants.{Choice, Group, Ahead, Behind, Atomic};
ghost use Rattle.pattern_defs.specs.Patterns.{IsNode, nodes_of};
ghost use Rattle.pattern_defs.specs.Attempt.{Node, Close, Again, is_char, is_greatest, holds_at};
ghost use Rattle.onig_match.specs.Machine.{subject, step_where, ids_at, arms_at, acted, means, node_of, behind_node};
ghost use Rattle.onig_match.specs.Sound.{IsHere, IsRest, IsSound, HasRoom, Leads, Visits};

use crate::anchors::holds;
use crate::area::{Area, go, start_of};
use crate::backs::steps_back;
use crate::cells::{Cell, Front, NodeAt, Repeated, Rest};
use crate::early::early_miss;
use crate::entries::{Point, Resume, Step, Visited};
use crate::runs::{Bounds, is_in, is_most, only_char};
use crate::searched::Searched;
use char_sets::CharSet;
use pattern_defs::{Anchor, ListId, PatNode, Place};

fn visit_one(set: &CharSet, on: &Searched<'_>, rest: Rest, at: u32) -> Step
    requires { length on.now.text.now < 2 ^ 31 }
    ensures { result ≡ step_where (is_char (in_set set.now) (slice_get on.now.text.now at)) rest (at + 1) }
{
    if is_in(set, on.text, at) {
        go(rest, at + 1)
    } else {
        Step::Failed
    }
}

fn visit_anchor(anchor: Anchor, on: &Searched<'_>, rest: Rest, at: u32) -> Step
    requires { at ≤ length on.now.text.now }
    ensures { result ≡ step_where (holds_at anchor (subject on.now) at) rest at }
{
    if holds(anchor, on.text, at, on.flags) {
        go(rest, at)
    } else {
        Step::Failed
    }
}

/// A visit with no more of them in the same step.
fn once(step: Step) -> Visited
    ensures { result ≡ record { step = step; more = 0 } }
{
    Visited { step, more: 0 }
}

fn visited(step: Step, more: u64) -> Visited
    ensures { result ≡ record { step = step; more = more } }
{
    Visited { step, more }
}

/// Whether a repeat may go on or be left out, after so many iterations.
fn is_open(least: u32, most: Option<u32>, count: u32) -> bool
    ensures { (result ≡ true) → (least ≤ count) × (is_greatest most count ≡ false) }
{
    if count < least {
        return false;
    }
    !is_most(most, count)
}

/// Going on behind a lookahead that saw nothing.
fn after_look(wanted: bool, rest: Rest, at: u32) -> Step
    ensures { result ≡ step_where (not wanted) rest at }
{
    if wanted { Step::Failed } else { go(rest, at) }
}

/// The node at the start of the rest of a list.
fn node_at(here: Rest) -> NodeAt
    ensures { result ≡ node_of here }
{
    NodeAt {
        list: here.list,
        index: here.index,
    }
}

/// What is behind the node at the start of the rest of a list.
fn after_node(here: Rest) -> Rest
    requires { here.index + 1 < 2 ^ 64 }
    ensures { result ≡ behind_node here }
{
    Rest {
        list: here.list,
        next: here.next,
        index: here.index + 1,
    }
}

impl Area {
    /// The alternatives are tried as at a miss, from the first on.
    fn visit_choice(&mut self, on: &Searched<'_>, node: NodeAt, rest: Rest, at: u32) -> Step
        requires here { IsHere on.now self.old rest at }
        requires list { node.list.0 < length on.now.pattern.now.lists }
        ensures { Leads on.now 1 self.old
            (acted on.now self.old (Node (Choice (ids_at on.now.pattern.now.lists node))) rest at) self.new result }
    {
        let next = self.behind(on, rest);
        self.enter(Resume::Alternatives { node, way: 0, next }, at);
        Step::Failed
    }

    fn visit_group(
        &mut self,
        on: &Searched<'_>,
        group: u32,
        body: ListId,
        rest: Rest,
        at: u32,
    ) -> Step
        requires here { IsHere on.now self.old rest at }
        requires node { IsNode (length on.now.pattern.now.lists) on.now.pattern.now.groups (Group group body) }
        ensures { Leads on.now 1 self.old (acted on.now self.old (Node (Group group body)) rest at) self.new result }
    {
        self.cells.push(Cell::GroupEnd {
            group,
            from: at,
            rest,
        });
        go(start_of(body, self.cells.len()), at)
    }

    fn visit_group_end(
        &mut self,
        on: &Searched<'_>,
        group: u32,
        from: u32,
        rest: Rest,
        at: u32,
    ) -> Step
        requires here { IsHere on.now self.old rest at }
        requires group { group ≤ on.now.pattern.now.groups }
        requires from { from ≤ length on.now.text.now }
        ensures { Leads on.now 1 self.old (acted on.now self.old (Close group from) rest at) self.new result }
    {
        self.take(group, Some(Place { from, to: at }));
        go(rest, at)
    }

    fn visit_ahead(
        &mut self,
        on: &Searched<'_>,
        body: ListId,
        wanted: bool,
        rest: Rest,
        at: u32,
    ) -> Step
        requires here { IsHere on.now self.old rest at }
        requires body { body.0 < length on.now.pattern.now.lists }
        ensures { Leads on.now 1 self.old (acted on.now self.old (Node (Ahead body wanted)) rest at) self.new result }
    {
        self.enter(Resume::AfterAhead { wanted, rest }, at);
        go(start_of(body, 0), at)
    }

    /// The arms are tried as at a miss, from the first on.
    fn visit_behind(
        &mut self,
        on: &Searched<'_>,
        node: NodeAt,
        wanted: bool,
        rest: Rest,
        at: u32,
    ) -> Step
        requires here { IsHere on.now self.old rest at }
        requires list { node.list.0 < length on.now.pattern.now.lists }
        ensures { Leads on.now 1 self.old
            (acted on.now self.old (Node (Behind (arms_at on.now.pattern.now.lists node) wanted)) rest at) self.new result }
    {
        let resume = Resume::AfterBehind {
            node,
            arm: 0,
            wanted,
            rest,
        };
        self.enter(resume, at);
        Step::Failed
    }

    fn visit_atomic(&mut self, on: &Searched<'_>, body: ListId, rest: Rest, at: u32) -> Step
        requires here { IsHere on.now self.old rest at }
        requires body { body.0 < length on.now.pattern.now.lists }
        ensures { Leads on.now 1 self.old (acted on.now self.old (Node (Atomic body)) rest at) self.new result }
    {
        self.enter(Resume::AfterAtomic(rest), at);
        go(start_of(body, 0), at)
    }

    fn visit_node(&mut self, on: &Searched<'_>, node: &PatNode, here: Rest, at: u32) -> Step
        requires here { IsHere on.now self.old here at }
        requires node { slice_get (nodes_of on.now.pattern.now.lists here.list) here.index ≡ Some node.now }
        requires names { IsNode (length on.now.pattern.now.lists) on.now.pattern.now.groups node.now }
        requires index { here.index + 1 < 2 ^ 64 }
        ensures { Leads on.now 1 self.old (acted on.now self.old (Node node.now) (behind_node here) at) self.new result }
    {
        let rest = after_node(here);
        match node {
            PatNode::One(set) => visit_one(set, on, rest, at),
            PatNode::At(anchor) => visit_anchor(*anchor, on, rest, at),
            PatNode::Choice(_) => self.visit_choice(on, node_at(here), rest, at),
            PatNode::Group { number, body } => self.visit_group(on, *number, *body, rest, at),
            PatNode::Repeat {
                body,
                least,
                most,
                greedy,
            } => {
                let repeat = Repeated {
                    body: *body,
                    least: *least,
                    most: *most,
                    greedy: *greedy,
                };
                self.repeat(on, repeat, 0, at, rest, at)
            }
            PatNode::Ahead { body, wanted } => self.visit_ahead(on, *body, *wanted, rest, at),
            PatNode::Behind { wanted, .. } => {
                self.visit_behind(on, node_at(here), *wanted, rest, at)
            }
            PatNode::Atomic(body) => self.visit_atomic(on, *body, rest, at),
            PatNode::Back { number, fold } => {
                steps_back(on, self.captures.get(*number), *fold, rest, at)
            }
        }
    }

    /// A visit of the first of what is still to match, where it is a node. A greedy repeat of a single character is
    /// done in one step, and so is what is left out since its first character isn't there.
    fn visit_first(&mut self, on: &Searched<'_>, node: &PatNode, here: Rest, at: u32) -> Visited
        requires here { IsHere on.now self.old here at }
        requires node { slice_get (nodes_of on.now.pattern.now.lists here.list) here.index ≡ Some node.now }
        requires names { IsNode (length on.now.pattern.now.lists) on.now.pattern.now.groups node.now }
        requires index { here.index + 1 < 2 ^ 64 }
        ensures { Visits on.now self.old (acted on.now self.old (Node node.now) (behind_node here) at) self.new result }
    {
        if let PatNode::Repeat {
            body,
            least,
            most,
            greedy: true,
        } = node
        {
            if let Some(set) = only_char(on.pattern.list(*body)) {
                let bounds = Bounds {
                    least: *least,
                    most: *most,
                };
                return self.visit_run(on, set, *body, bounds, after_node(here), at);
            }
            if is_open(*least, *most, 0) {
                if let Some(more) = early_miss(on, *body, at) {
                    return visited(go(after_node(here), at), more);
                }
            }
        }
        if let PatNode::Ahead { body, wanted } = node {
            if let Some(more) = early_miss(on, *body, at) {
                return visited(after_look(*wanted, after_node(here), at), more);
            }
        }
        once(self.visit_node(on, node, here, at))
    }

    /// The repeat that an iteration is of. It ends where one iteration more would miss at once.
    fn visit_again(
        &mut self,
        on: &Searched<'_>,
        repeat: Repeated,
        count: u32,
        begun: u32,
        rest: Rest,
        at: u32,
    ) -> Visited
        requires here { IsHere on.now self.old rest at }
        requires body { repeat.body.0 < length on.now.pattern.now.lists }
        requires count { count ≤ length self.old.cells.items }
        ensures { Visits on.now self.old (acted on.now self.old
            (Again repeat.body repeat.least repeat.most repeat.greedy count begun) rest at) self.new result }
    {
        if repeat.greedy && begun != at && is_open(repeat.least, repeat.most, count) {
            if let Some(more) = early_miss(on, repeat.body, at) {
                return visited(go(rest, at), more);
            }
        }
        once(self.repeat(on, repeat, count, begun, rest, at))
    }

    /// One look at what is still to match, and those that follow it in the same step.
    pub(crate) fn visit(&mut self, on: &Searched<'_>, point: Point) -> Visited
        requires { IsHere on.now self.old point.rest point.at }
        ensures { Visits on.now self.old (λ left. means (subject on.now) self.old (Step.Go point) (suc left))
            self.new result }
    {
        match self.front(on, point.rest) {
            Front::AtEnd => once(Step::Found(point.at)),
            Front::AtNode(rest) => {
                let nodes = on.pattern.list(rest.list);
                self.visit_first(on, &nodes[rest.index], rest, point.at)
            }
            Front::AtGroupEnd { group, from, rest } => {
                once(self.visit_group_end(on, group, from, rest, point.at))
            }
            Front::AtIteration {
                repeat,
                count,
                begun,
                rest,
            } => self.visit_again(on, repeat, count, begun, rest, point.at),
        }
    }
}
