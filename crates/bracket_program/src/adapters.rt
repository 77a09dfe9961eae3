//! Files of the system, standard input and standard output, as the program reads and writes them.

ghost use Rattle.std.specs.Prelude.{◌≡◌, ℕ, ◌<◌, ◌≤◌, ◌-◌, ◌^◌, List, Option, None, length, min, take, IfOk, OnOk, OnErr};
ghost use Rattle.std.specs.Io.KnownBytes.{ReadConsumes, WriteAppends};
ghost use Rattle.piece_io.specs.Told.{Told, Untold, GivesFrom, GivesFront, appended, risen};

use piece_io::{Failed, Files, Sink, Source};
use std::fs;
use std::io::{Read, Write};
use std::os::unix::fs::FileExt;

/// The files of the system. What they hold is never told, and a failed read counts for every name.
#[derive(Drop)]
pub struct FileStore<'r> {
    rt: &'r HostRuntime,
    faults: u64,
}

impl<'r> FileStore<'r> {
    pub fn new(rt: &'r HostRuntime) -> FileStore<'r>
        ensures { result.faults ≡ 0 }
    {
        FileStore { rt, faults: 0 }
    }
}

impl Files for FileStore<'_> {
    ghost contents = { λ _ _. Untold };

    ghost faults = { λ s _. s.faults };

    fn read_at(&mut self, name: &str, from: u64, into: &mut [u8]) -> Result<usize, Failed>
        requires { 0 < length into.old }
        ensures within { IfOk result (λ n. n ≤ length into.old) }
        ensures gives { IfOk result (λ n. GivesFrom Untold from n into.new) }
        ensures counts { OnOk result ((q : List ℕ) → self.new.faults ≡ self.old.faults) }
        ensures counted { OnErr result (self.new.faults ≡ risen self.old.faults) }
        ensures rises { OnErr result (risen self.old.faults ≤ self.new.faults) }
        ensures never_falls { (q : List ℕ) → self.old.faults ≤ self.new.faults }
    {
        if let Ok(file) = fs::open(self.rt, name) {
            if let Ok(come) = file.read_at(into, from) {
                return Ok(come);
            }
        }
        self.faults = self.faults.saturating_add(1);
        Err(Failed)
    }
}

/// Standard input, or another reader. What it has left is never told.
#[derive(Drop)]
pub struct InFeed<R: Read + Drop> {
    reader: R,
    faults: u64,
}

impl<R: Read + Drop> InFeed<R> {
    pub fn new(reader: R) -> InFeed<R>
        ensures { result.faults ≡ 0 }
    {
        InFeed { reader, faults: 0 }
    }
}

impl<R: Read + Drop> Source for InFeed<R> {
    ghost left = { λ _. None };

    ghost faults = { λ s. s.faults };

    fn read(&mut self, into: &mut [u8]) -> Result<usize, Failed>
        requires { 0 < length into.old }
        // What a reader tells of its bytes: they are handed on, and its end alone is the end.
        ensures moves { ReadConsumes (R.remaining self.old.reader) (R.remaining self.new.reader) result into.new }
        ensures within { IfOk result (λ n. n ≤ length into.old) }
        ensures gives { IfOk result (λ n. GivesFront None None n into.new) }
        ensures counts { OnOk result (self.new.faults ≡ self.old.faults) }
        ensures counted { OnErr result (self.new.faults ≡ risen self.old.faults) }
        ensures rises { OnErr result (risen self.old.faults ≤ self.new.faults) }
        ensures never_falls { self.old.faults ≤ self.new.faults }
    {
        if let Ok(come) = self.reader.read(into) {
            return Ok(come);
        }
        self.faults = self.faults.saturating_add(1);
        Err(Failed)
    }
}

/// Standard output, or another writer. What it holds is never told, and a write that takes nothing is a fault.
#[derive(Drop)]
pub struct OutFeed<W: Write + Drop> {
    writer: W,
    faults: u64,
}

impl<W: Write + Drop> OutFeed<W> {
    pub fn new(writer: W) -> OutFeed<W>
        ensures { result.faults ≡ 0 }
    {
        OutFeed { writer, faults: 0 }
    }
}

impl<W: Write + Drop> Sink for OutFeed<W> {
    ghost held = { λ _. None };

    ghost faults = { λ s. s.faults };

    fn write(&mut self, piece: &[u8]) -> Result<usize, Failed>
        requires { 0 < length piece.now }
        // What a writer tells of its bytes: those that are said to be taken were added, and no others.
        ensures moves { WriteAppends (W.contents self.old.writer) (W.contents self.new.writer) result piece.now }
        ensures some { IfOk result (λ n. 0 < n) }
        ensures within { IfOk result (λ n. n ≤ length piece.now) }
        ensures takes { IfOk result (λ n. None ≡ appended None (take n piece.now)) }
        ensures counts { OnOk result (self.new.faults ≡ self.old.faults) }
        ensures counted { OnErr result (self.new.faults ≡ risen self.old.faults) }
        ensures rises { OnErr result (risen self.old.faults ≤ self.new.faults) }
        ensures never_falls { self.old.faults ≤ self.new.faults }
    {
        if let Ok(taken) = self.writer.write(piece) {
            if taken > 0 {
                return Ok(taken);
            }
        }
        self.faults = self.faults.saturating_add(1);
        Err(Failed)
    }
}
