//! Counts of lists and nodes of a pattern, where too many count as want of memory.

ghost use Rattle.std.specs.Prelude.{◌≡◌, ◌+◌, IfOk};

use std::alloc::AllocError;

/// How many there are with so many more. 2^32 - 1 or more count as want of memory.
pub fn counted(count: u32, more: usize) -> Result<u32, AllocError>
    ensures { IfOk result (λ all. all ≡ count + more) }
{
    if more < (u32::MAX - count) as usize {
        Ok(count + more as u32)
    } else {
        Err(AllocError)
    }
}
