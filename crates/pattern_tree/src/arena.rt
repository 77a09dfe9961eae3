//! Numbered lists of nodes, one behind another.

ghost use Rattle.std.specs.Prelude.{◌≡◌, ◌<◌, ◌≤◌, [], ◌∷◌, ◌++◌, length, slice_index, sum_by, IfOk, OnOk, OnErr};
ghost use Rattle.pattern_defs.specs.Patterns.{nodes_of};

use crate::count::counted;
use pattern_defs::{ListId, PatNode};
use std::alloc::{AllocError, Global};
use std::marker::Model;

/// Numbered lists of nodes, which stand in one vector, one list behind another. Clauses see the lists.
#[derive(Debug, Drop)]
pub(crate) struct NodeArena {
    nodes: Vec<PatNode>,
    /// Where each list ends among all nodes.
    ends: Vec<u32>,
}

impl Model for NodeArena {
    ghost use Rattle.pattern_defs.specs.Patterns.{NodeLists};

    ghost Value = { NodeLists };

    ghost use Rattle.pattern_tree.specs.Arena.{lists_of, IsArena};

    ghost view = { lists_of };

    ghost invariant = { IsArena };
}

/// Where a list begins: where the one before it ends.
fn begin_of(ends: &[u32], number: usize) -> u32
    requires { number ≤ length ends.now }
    ensures { result ≡ slice_index (0 ∷ ends.now) number }
{
    if number == 0 { 0 } else { ends[number - 1] }
}

impl NodeArena {
    pub(crate) fn new(alloc: Global) -> NodeArena
        ensures { result ≡ [] }
    {
        NodeArena {
            nodes: Vec::new(alloc),
            ends: Vec::new(alloc),
        }
    }

    /// How many nodes its lists have.
    pub(crate) fn size(&self) -> u32
        ensures { result ≡ sum_by length self.now }
    {
        self.nodes.len() as u32
    }

    /// The nodes of a list.
    pub(crate) fn list(&self, id: ListId) -> &[PatNode]
        requires { id.0 < length self.now }
        ensures { result.now ≡ nodes_of self.now id }
    {
        let number = id.0 as usize;
        let begin = begin_of(&self.ends, number);
        let end = self.ends[number];
        &self.nodes.as_slice()[begin as usize..end as usize]
    }

    /// Adds a list, whose number is how many there were. Want of memory is the answer also where that number, or the
    /// count of all nodes, would be 2^32 - 1 or more.
    pub(crate) fn push_list(&mut self, mut nodes: Vec<PatNode>) -> Result<ListId, AllocError>
        ensures number { IfOk result (λ id. id.0 ≡ length self.old) }
        ensures ok { OnOk result (self.new ≡ self.old ++ nodes.items ∷ []) }
        ensures err { OnErr result (self.new ≡ self.old) }
    {
        let number = counted(0, self.ends.len())?;
        let end = counted(self.size(), nodes.len())?;
        self.ends.reserve(1)?;
        self.nodes.append(&mut nodes)?;
        self.ends.push(end)?;
        Ok(ListId(number))
    }
}
