//! A pattern that is being put together, list by list.

ghost use Rattle.std.specs.Prelude.{◌≡◌, ◌<◌, ◌≤◌, [], ◌∷◌, ◌++◌, length, max, IfOk, OnOk, OnErr};
ghost use Rattle.pattern_defs.specs.Patterns.{AreNodes};

use crate::arena::NodeArena;
use crate::pattern::Pattern;
use pattern_defs::{ListId, PatNode};
use std::alloc::{AllocError, Global};
use std::marker::Model;

/// A pattern that is being put together, list by list. Clauses see the lists so far, and up to which number their
/// nodes may name groups.
#[derive(Debug, Drop)]
pub struct PatternDraft {
    arena: NodeArena,
    named: u32,
}

impl Model for PatternDraft {
    ghost use Rattle.pattern_tree.specs.Drafts.{Drafted};

    ghost Value = { Drafted };

    ghost use Rattle.pattern_tree.specs.Kept.{drafted, IsDraft};

    ghost view = { drafted };

    ghost invariant = { IsDraft };
}

impl PatternDraft {
    pub fn new(alloc: Global) -> PatternDraft
        ensures { result ≡ record { lists = []; named = 0 } }
    {
        PatternDraft {
            arena: NodeArena::new(alloc),
            named: 0,
        }
    }

    /// Later nodes may name groups up to this number.
    pub fn allow_groups(&mut self, groups: u32)
        ensures { self.new ≡ record self.old { named = max self.old.named groups } }
    {
        self.named = self.named.max(groups);
    }

    /// Adds a list, whose number is how many there were. Want of memory is the answer also where that number, or the
    /// count of all nodes, would be 2^32 - 1 or more: a pattern so large has no room anyway.
    pub fn push_list(&mut self, nodes: Vec<PatNode>) -> Result<ListId, AllocError>
        requires { AreNodes (length self.old.lists) self.old.named nodes.items }
        ensures number { IfOk result (λ id. id.0 ≡ length self.old.lists) }
        ensures ok { OnOk result (self.new ≡ record self.old { lists = self.old.lists ++ nodes.items ∷ [] }) }
        ensures err { OnErr result (self.new ≡ self.old) }
    {
        self.arena.push_list(nodes)
    }

    /// The pattern whose whole is the list `top`.
    pub fn finish(self, top: ListId, groups: u32) -> Pattern
        requires top { top.0 < length self.lists }
        requires groups { self.named ≤ groups }
        ensures { result ≡ record { lists = self.lists; top = top; groups = groups } }
    {
        Pattern::of_arena(self.arena, top, groups)
    }
}
