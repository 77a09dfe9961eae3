//! Which calls of an object in memory fail, and how its calls are counted.

ghost use Rattle.std.specs.Prelude.{◌≡◌, ◌↔◌, ◌≤◌, ◌++◌, IsTrue, Contains, IfOk, List, length, take, drop};
ghost use Rattle.piece_io.specs.Told.{risen};
ghost use Rattle.piece_io.specs.Mem.{IsNextFailing, called};

use std::alloc::{AllocError, Global};
use std::marker::Model;

/// Which calls of an object in memory are to fail, by their numbers from 1.
#[derive(Drop)]
pub struct CallList {
    failing: Vec<u32>,
    made: u64,
}

impl Model for CallList {
    ghost use Rattle.piece_io.specs.Mem.{Calls};

    ghost Value = { Calls };

    ghost view = { λ c. record { failing = c.failing.items; made = c.made } };
}

impl CallList {
    pub fn new(alloc: Global, failing: &[u32]) -> Result<CallList, AllocError>
        ensures failing { IfOk result (λ c. c.failing ≡ failing.now) }
        ensures made { IfOk result (λ c. c.made ≡ 0) }
    {
        Ok(CallList {
            failing: Vec::from_slice(alloc, failing)?,
            made: 0,
        })
    }

    /// Counts one more call, and answers whether it is to fail.
    pub fn next_fails(&mut self) -> bool
        ensures answer { IsTrue result ↔ IsNextFailing self.old }
        ensures state { self.new ≡ called self.old }
    {
        self.made = one_more(self.made);
        is_listed(&self.failing, self.made)
    }
}

fn is_listed(numbers: &[u32], call: u64) -> bool
    ensures { IsTrue result ↔ Contains numbers.now call }
{
    numbers.iter().any(|number| u64::from(*number) == call)
}

/// A count after one more. It stays at the largest number.
pub fn one_more(count: u64) -> u64
    ensures value { result ≡ risen count }
    ensures not_less { count ≤ result }
{
    count.saturating_add(1)
}

/// Puts the first `size` of these bytes at the front of `into`.
pub fn put_front(into: &mut [u8], bytes: &[u8], size: usize)
    requires bytes { size ≤ length bytes.now }
    requires into { size ≤ length into.old }
    ensures { into.new ≡ take size bytes.now ++ drop size into.old }
{
    into[..size].copy_from_slice(&bytes[..size]);
}
