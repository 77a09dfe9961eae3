//! The body of a group that is being read.

ghost use Rattle.std.specs.Prelude.{◌≡◌, ◌++◌, ◌∷◌, [], Some, None, IfOk, OnOk};
ghost use Rattle.syntax_defs.specs.PatternSyntax.{empty_body, open_items, with_item};

use pattern_defs::{ListId, ListIds};
use std::alloc::{AllocError, Global};
use std::marker::Model;
use std::mem;
use syntax_defs::Item;

/// The body of a group that is being read: the alternatives that have ended, and of the open one what came before
/// the last item, the last item, and how many repeats stand on that, where there is one.
#[derive(Drop)]
pub(crate) struct OpenBody {
    ended: ListIds,
    done: Vec<Item>,
    last: Vec<Item>,
    repeats: Option<u32>,
}

impl Model for OpenBody {
    ghost use Rattle.syntax_defs.specs.PatternSyntax.{Body};

    ghost Value = { Body };

    ghost use Rattle.onig_parse.specs.Reader.{body_of};

    ghost view = { body_of };
}

impl OpenBody {
    pub(crate) fn new(alloc: Global) -> OpenBody
        ensures { result ≡ empty_body }
    {
        OpenBody {
            ended: ListIds::new(alloc),
            done: Vec::new(alloc),
            last: Vec::new(alloc),
            repeats: None,
        }
    }

    /// Takes one item more, which may be several nodes, or none.
    pub(crate) fn take_item(&mut self, item: Vec<Item>) -> Result<(), AllocError>
        ensures { OnOk result (self.new ≡ with_item item.items self.old) }
    {
        self.done.append(&mut self.last)?;
        self.last = item;
        self.repeats = Some(0);
        Ok(())
    }

    /// How many repeats stand on the last item, where there is one.
    pub(crate) fn repeats(&self) -> Option<u32>
        ensures { result ≡ self.now.repeats }
    {
        self.repeats
    }

    /// Takes the last item out.
    pub(crate) fn take_last(&mut self, alloc: Global) -> Vec<Item>
        ensures last { result.items ≡ self.old.last }
        ensures rest { self.new ≡ record self.old { last = [] } }
    {
        mem::replace(&mut self.last, Vec::new(alloc))
    }

    /// The last item with so many repeats.
    pub(crate) fn put_last(&mut self, item: Vec<Item>, repeats: u32)
        ensures { self.new ≡ record self.old { last = item.items; repeats = Some repeats } }
    {
        self.last = item;
        self.repeats = Some(repeats);
    }

    /// Ends the open alternative, and gives its items.
    pub(crate) fn take_open(&mut self, alloc: Global) -> Result<Vec<Item>, AllocError>
        ensures items { IfOk result (λ items. items.items ≡ open_items self.old) }
        ensures rest { OnOk result (self.new ≡ record { ended = self.old.ended; done = []; last = []; repeats = None }) }
    {
        self.done.append(&mut self.last)?;
        self.repeats = None;
        Ok(mem::replace(&mut self.done, Vec::new(alloc)))
    }

    /// Takes the number of an alternative that has ended.
    pub(crate) fn take_ended(&mut self, id: ListId) -> Result<(), AllocError>
        ensures { OnOk result (self.new ≡ record self.old { ended = self.old.ended ++ id ∷ [] }) }
    {
        self.ended.push(id)
    }

    /// The alternatives that have ended, and the items of the open one.
    pub(crate) fn into_parts(self) -> Result<(ListIds, Vec<Item>), AllocError>
        ensures ended { IfOk result (λ parts. parts.0 ≡ self.ended) }
        ensures items { IfOk result (λ parts. parts.1.items ≡ open_items self) }
    {
        let OpenBody {
            ended,
            mut done,
            mut last,
            repeats: _,
        } = self;
        done.append(&mut last)?;
        Ok((ended, done))
    }
}
