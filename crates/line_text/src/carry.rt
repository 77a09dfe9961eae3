//! The lines that a batch carries, in runs.

ghost use Rattle.std.specs.Prelude.{◌≡◌, ◌++◌, [], OnOk};

use std::alloc::{AllocError, Global};
use std::marker::Model;

/// Lines that a batch carries: `count` of them, from line `old` on in the text before it, and from line
/// `new` on in the text after it.
#[derive(Clone, Copy, Debug, PartialEq, Eq)]
pub struct Run {
    pub old: u32,
    pub new: u32,
    pub count: u32,
}

/// The lines that a batch carries, in runs that are as long as possible.
#[derive(Debug, Drop)]
pub struct Carry {
    runs: Vec<Run>,
}

impl Model for Carry {
    ghost use Rattle.std.specs.Prelude.{List};
    ghost use Rattle.line_text.specs.declared.carry.Run.{Run};

    ghost Value = { List Run };

    ghost view = { λ carry. carry.runs.items };
}

impl Carry {
    ghost use Rattle.line_text.specs.Runs.{run_between};

    pub(crate) fn new(alloc: Global) -> Carry
        ensures { result ≡ [] }
    {
        Carry {
            runs: Vec::new(alloc),
        }
    }

    /// Adds the run of the lines from `old` to `end`, where there are any.
    pub(crate) fn add(&mut self, old: u32, end: u32, new: u32) -> Result<(), AllocError>
        ensures { OnOk result (self.new ≡ self.old ++ run_between old end new) }
    {
        if old < end {
            self.runs.push(Run {
                old,
                new,
                count: end - old,
            })?;
        }
        Ok(())
    }

    pub fn as_slice(&self) -> &[Run]
        ensures { result.now ≡ self.now }
    {
        self.runs.as_slice()
    }
}
