//! A source that gives bytes from memory, a piece at a time, and fails at listed calls.

ghost use Rattle.std.specs.Prelude.{◌≡◌, ◌↔◌, ◌<◌, ◌≤◌, ◌++◌, IsErr, IfOk, OnOk, OnErr, List, length, take, drop, Some};
ghost use Rattle.piece_io.specs.Mem.{IsNextFailing, SourceState, read_size, after_read, after_failed_read};
ghost use Rattle.piece_io.specs.Told.{GivesFront, risen};

use crate::call_list::{CallList, one_more, put_front};
use crate::source::{Failed, Source};
use std::alloc::{AllocError, Global};
use std::marker::Model;

/// A source that gives bytes from memory, a piece at a time. The calls of a list fail.
#[derive(Drop)]
pub struct MemSource {
    bytes: Vec<u8>,
    taken: usize,
    piece: u32,
    calls: CallList,
    faults: u64,
}

impl Model for MemSource {
    ghost use Rattle.std.specs.Prelude.{◌<◌, ◌≤◌, length, drop};
    ghost use Rattle.piece_io.specs.Mem.{SourceState};

    ghost Value = { SourceState };

    ghost view = { λ s. record { left = drop s.taken s.bytes.items; piece = s.piece; calls = s.calls; faults = s.faults } };

    ghost invariant = { λ s. (s.taken ≤ length s.bytes.items) × (0 < s.piece) };
}

impl MemSource {
    /// A source of these bytes, of which each read gives at most `piece`. The reads with these numbers,
    /// counted from 1, fail.
    pub fn new(
        alloc: Global,
        bytes: &[u8],
        piece: u32,
        failing: &[u32],
    ) -> Result<MemSource, AllocError>
        requires { 0 < piece }
        ensures left { IfOk result (λ s. s.left ≡ bytes.now) }
        ensures piece { IfOk result (λ s. s.piece ≡ piece) }
        ensures calls { IfOk result (λ s. s.calls ≡ record { failing = failing.now; made = 0 }) }
        ensures faults { IfOk result (λ s. s.faults ≡ 0) }
    {
        Ok(MemSource {
            bytes: Vec::from_slice(alloc, bytes)?,
            taken: 0,
            piece,
            calls: CallList::new(alloc, failing)?,
            faults: 0,
        })
    }
}

impl Source for MemSource {
    ghost left = { λ s. Some s.left };

    ghost faults = { λ s. s.faults };

    fn read(&mut self, into: &mut [u8]) -> Result<usize, Failed>
        requires { 0 < length into.old }
        ensures fails { IsErr result ↔ IsNextFailing self.old.calls }
        ensures size { IfOk result (λ n. n ≡ read_size self.old (length into.old)) }
        ensures puts { IfOk result (λ n. into.new ≡ take n self.old.left ++ drop n into.old) }
        ensures goes_on { IfOk result (λ n. self.new ≡ after_read self.old n) }
        ensures err { OnErr result ((self.new ≡ after_failed_read self.old) × (into.new ≡ into.old)) }
        ensures within { IfOk result (λ n. n ≤ length into.old) }
        ensures gives { IfOk result (λ n. GivesFront (Some self.old.left) (Some self.new.left) n into.new) }
        ensures stays { OnErr result (self.new.left ≡ self.old.left) }
        ensures counts { OnOk result (self.new.faults ≡ self.old.faults) }
        ensures rises { OnErr result (risen self.old.faults ≤ self.new.faults) }
        ensures never_falls { self.old.faults ≤ self.new.faults }
    {
        if self.calls.next_fails() {
            self.faults = one_more(self.faults);
            return Err(Failed);
        }
        let left = &self.bytes[self.taken..];
        let size = left.len().min(into.len()).min(self.piece as usize);
        put_front(into, left, size);
        self.taken += size;
        Ok(size)
    }
}
