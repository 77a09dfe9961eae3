//! A sink that keeps bytes in memory, and fails at listed calls and where its room is full.

ghost use Rattle.std.specs.Prelude.{◌≡◌, ◌↔◌, ◌<◌, ◌≤◌, ◌⊎◌, IsErr, IfOk, OnOk, OnErr, List, [], length, take, Some};
ghost use Rattle.piece_io.specs.Mem.{IsNextFailing, IsFull, SinkState, write_size, after_write, after_failed_write};
ghost use Rattle.piece_io.specs.Told.{appended, risen};

use crate::call_list::{CallList, one_more};
use crate::sink::Sink;
use crate::source::Failed;
use std::alloc::{AllocError, Global};
use std::marker::Model;

/// A sink that keeps bytes in memory, in room that it takes when it is made. The calls of a list fail, and
/// those where the room is full.
#[derive(Drop)]
pub struct MemSink {
    bytes: Vec<u8>,
    room: u32,
    piece: u32,
    calls: CallList,
    faults: u64,
}

impl Model for MemSink {
    ghost use Rattle.std.specs.Prelude.{◌<◌, ◌≤◌, length};
    ghost use Rattle.std.specs.Vec.{vec_capacity};
    ghost use Rattle.piece_io.specs.Mem.{SinkState};

    ghost Value = { SinkState };

    ghost view = { λ s. record { held = s.bytes.items; room = s.room; piece = s.piece; calls = s.calls; faults = s.faults } };

    ghost invariant = { λ s. (length s.bytes.items ≤ s.room) × (s.room ≤ vec_capacity s.bytes) × (0 < s.piece) };
}

impl MemSink {
    /// A sink with room for so many bytes, of which each write takes at most `piece`. The writes with these
    /// numbers, counted from 1, fail.
    pub fn new(alloc: Global, room: u32, piece: u32, failing: &[u32]) -> Result<MemSink, AllocError>
        requires { 0 < piece }
        ensures held { IfOk result (λ s. s.held ≡ []) }
        ensures room { IfOk result (λ s. s.room ≡ room) }
        ensures piece { IfOk result (λ s. s.piece ≡ piece) }
        ensures calls { IfOk result (λ s. s.calls ≡ record { failing = failing.now; made = 0 }) }
        ensures faults { IfOk result (λ s. s.faults ≡ 0) }
    {
        Ok(MemSink {
            bytes: Vec::with_capacity(alloc, room as usize)?,
            room,
            piece,
            calls: CallList::new(alloc, failing)?,
            faults: 0,
        })
    }

    /// The bytes that were written.
    pub fn bytes(&self) -> &[u8]
        ensures { result.now ≡ self.now.held }
    {
        self.bytes.as_slice()
    }
}

impl Sink for MemSink {
    ghost held = { λ s. Some s.held };

    ghost faults = { λ s. s.faults };

    fn write(&mut self, piece: &[u8]) -> Result<usize, Failed>
        requires { 0 < length piece.now }
        ensures fails { IsErr result ↔ (IsNextFailing self.old.calls ⊎ IsFull self.old) }
        ensures size { IfOk result (λ n. n ≡ write_size self.old (length piece.now)) }
        ensures goes_on { IfOk result (λ n. self.new ≡ after_write self.old (take n piece.now)) }
        ensures err { OnErr result (self.new ≡ after_failed_write self.old) }
        ensures some { IfOk result (λ n. 0 < n) }
        ensures within { IfOk result (λ n. n ≤ length piece.now) }
        ensures takes { IfOk result (λ n. Some self.new.held ≡ appended (Some self.old.held) (take n piece.now)) }
        ensures stays { OnErr result (self.new.held ≡ self.old.held) }
        ensures counts { OnOk result (self.new.faults ≡ self.old.faults) }
        ensures rises { OnErr result (risen self.old.faults ≤ self.new.faults) }
        ensures never_falls { self.old.faults ≤ self.new.faults }
    {
        let is_listed = self.calls.next_fails();
        let left = self.room as usize - self.bytes.len();
        if is_listed || left == 0 {
            self.faults = one_more(self.faults);
            return Err(Failed);
        }
        let size = piece.len().min(left).min(self.piece as usize);
        self.bytes.extend_from_slice(&piece[..size]).unwrap();
        Ok(size)
    }
}
