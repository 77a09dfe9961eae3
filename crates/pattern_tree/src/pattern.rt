//! A pattern as numbered lists of nodes, and whether it is flat.

ghost use Rattle.std.specs.Prelude.{◌≡◌, ◌<◌, length};
ghost use Rattle.std.specs.List.{list_all};
ghost use Rattle.pattern_defs.specs.Patterns.{Tree, nodes_of, size_of, is_flat, is_plain, AllIds, AreNodes, AreLists};

use crate::arena::NodeArena;
use pattern_defs::{ListId, PatNode};
use std::marker::Model;

/// A pattern, as numbered lists of nodes.
#[derive(Debug, Drop)]
pub struct Pattern {
    arena: NodeArena,
    top: ListId,
    groups: u32,
}

impl Model for Pattern {
    ghost use Rattle.pattern_defs.specs.Patterns.{Tree};

    ghost Value = { Tree };

    ghost use Rattle.pattern_tree.specs.Kept.{tree_of, IsKept};

    ghost view = { tree_of };

    ghost invariant = { IsKept };
}

impl Pattern {
    /// The pattern whose whole is the list `top`.
    pub(crate) fn of_arena(arena: NodeArena, top: ListId, groups: u32) -> Pattern
        requires lists { AreLists 0 groups arena }
        requires top { top.0 < length arena }
        ensures { result ≡ record { lists = arena; top = top; groups = groups } }
    {
        Pattern { arena, top, groups }
    }

    /// The list that is the whole pattern.
    pub fn top(&self) -> ListId
        ensures top { result ≡ self.now.top }
        ensures is_there { result.0 < length self.now.lists }
        ensures names { AreLists 0 self.now.groups self.now.lists }
    {
        self.top
    }

    /// How many numbered groups it has.
    pub fn groups(&self) -> u32
        ensures { result ≡ self.now.groups }
    {
        self.groups
    }

    /// How many nodes it has.
    pub fn size(&self) -> u32
        ensures { result ≡ size_of self.now }
    {
        self.arena.size()
    }

    /// The nodes of a list.
    pub fn list(&self, id: ListId) -> &[PatNode]
        requires { id.0 < length self.now.lists }
        ensures nodes { result.now ≡ nodes_of self.now.lists id }
        ensures names { AreNodes (length self.now.lists) self.now.groups result.now }
    {
        self.arena.list(id)
    }

    /// Whether it is a list of single characters and anchors, or one set of alternatives of such lists.
    pub fn is_flat(&self) -> bool
        ensures { result ≡ is_flat self.now }
    {
        match self.list(self.top()) {
            [PatNode::Choice(ids)] => self.are_all_plain(ids.as_slice()),
            nodes => are_plain(nodes),
        }
    }

    /// Whether these lists hold single characters and anchors alone.
    fn are_all_plain(&self, ids: &[ListId]) -> bool
        requires { AllIds (length self.now.lists) ids.now }
        ensures { result ≡ list_all (λ id. list_all is_plain (nodes_of self.now.lists id)) ids.now }
    {
        for id in ids {
            if !are_plain(self.list(*id)) {
                return false;
            }
        }
        true
    }
}

fn is_plain_node(node: &PatNode) -> bool
    ensures { result ≡ is_plain node.now }
{
    matches!(node, PatNode::One(_) | PatNode::At(_))
}

fn are_plain(nodes: &[PatNode]) -> bool
    ensures { result ≡ list_all is_plain nodes.now }
{
    nodes.iter().all(is_plain_node)
}
