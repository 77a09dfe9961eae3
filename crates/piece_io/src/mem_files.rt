//! Files in memory, of which listed reads fail, and reads of names that aren't there.

ghost use Rattle.std.specs.Prelude.{◌≡◌, ◌≢◌, ◌↔◌, ℕ, ◌<◌, ◌≤◌, ◌⊎◌, ◌++◌, List, [], IsErr, IfOk, OnOk, OnErr, Some, None, length, take, drop, min, position};
ghost use Rattle.std.specs.Option.{option_copied};
ghost use Rattle.std.specs.Str.{bytes_eq};
ghost use Rattle.piece_io.specs.Told.{Told, Missing, Holds, GivesFrom, risen};
ghost use Rattle.piece_io.specs.Mem.{IsNextFailing};
ghost use Rattle.piece_io.specs.MemFiles.{FilesState, file_of, contents_of, faults_of, faulted, changed, absent_after, count_of, told_of, after_read_at, after_failed_read_at};

use crate::call_list::{CallList, one_more, put_front};
use crate::files::Files;
use crate::source::Failed;
use std::alloc::{AllocError, Global};
use std::marker::Model;
use text_pos::{Bytes, Name};

/// A file in memory, and how many reads of it have failed.
#[derive(Drop)]
pub struct MemFile {
    name: Name,
    bytes: Bytes,
    faults: u64,
}

/// Files in memory. The reads of a list fail, and those of names that aren't there, which share one count.
#[derive(Drop)]
pub struct MemFiles {
    alloc: Global,
    files: Vec<MemFile>,
    absent: u64,
    calls: CallList,
}

impl Model for MemFiles {
    ghost use Rattle.piece_io.specs.MemFiles.{FilesState};

    ghost Value = { FilesState };

    ghost view = { λ s. record { files = s.files.items; absent = s.absent; calls = s.calls } };
}

impl MemFiles {
    /// No files yet. The reads with these numbers, counted from 1, fail.
    pub fn new(alloc: Global, failing: &[u32]) -> Result<MemFiles, AllocError>
        ensures files { IfOk result (λ s. s.files ≡ []) }
        ensures absent { IfOk result (λ s. s.absent ≡ 0) }
        ensures calls { IfOk result (λ s. s.calls ≡ record { failing = failing.now; made = 0 }) }
    {
        Ok(MemFiles {
            alloc,
            files: Vec::new(alloc),
            absent: 0,
            calls: CallList::new(alloc, failing)?,
        })
    }

    /// The name now has these bytes. A new name begins with the count of the names that aren't there.
    pub fn put(&mut self, name: &str, bytes: &[u8]) -> Result<(), AllocError>
        ensures has { OnOk result (contents_of self.new name.now ≡ Holds bytes.now) }
        ensures others { OnOk result ((q : List ℕ) → q ≢ name.now → contents_of self.new q ≡ contents_of self.old q) }
        ensures counts { OnOk result ((q : List ℕ) → faults_of self.new q ≡ faults_of self.old q) }
        ensures calls { OnOk result (self.new.calls ≡ self.old.calls) }
        ensures err { OnErr result (self.new ≡ self.old) }
    {
        let bytes = Bytes::of(self.alloc, bytes)?;
        match place_of(&self.files, name) {
            Some(at) => self.files[at].bytes = bytes,
            None => {
                let name = Name::of(self.alloc, name)?;
                self.files.push(MemFile {
                    name,
                    bytes,
                    faults: self.absent,
                })?;
            }
        }
        Ok(())
    }
}

impl Files for MemFiles {
    ghost contents = { contents_of };

    ghost faults = { faults_of };

    fn read_at(&mut self, name: &str, from: u64, into: &mut [u8]) -> Result<usize, Failed>
        requires { 0 < length into.old }
        ensures fails { IsErr result ↔ (IsNextFailing self.old.calls ⊎ (contents_of self.old name.now ≡ Missing)) }
        ensures size { IfOk result (λ n. (bytes : List ℕ) → contents_of self.old name.now ≡ Holds bytes
            → n ≡ min (length into.old) (length (drop from bytes))) }
        ensures puts { IfOk result (λ n. (bytes : List ℕ) → contents_of self.old name.now ≡ Holds bytes
            → into.new ≡ take n (drop from bytes) ++ drop n into.old) }
        ensures goes_on { OnOk result (self.new ≡ after_read_at self.old) }
        ensures err { OnErr result ((self.new ≡ after_failed_read_at self.old name.now) × (into.new ≡ into.old)) }
        ensures within { IfOk result (λ n. n ≤ length into.old) }
        ensures gives { IfOk result (λ n. GivesFrom (contents_of self.old name.now) from n into.new) }
        ensures same { (q : List ℕ) → contents_of self.new q ≡ contents_of self.old q }
        ensures counts { OnOk result ((q : List ℕ) → faults_of self.new q ≡ faults_of self.old q) }
        ensures rises { OnErr result (risen (faults_of self.old name.now) ≤ faults_of self.new name.now) }
        ensures never_falls { (q : List ℕ) → faults_of self.old q ≤ faults_of self.new q }
    {
        if self.calls.next_fails() {
            count_fault(&mut self.files, &mut self.absent, name);
            return Err(Failed);
        }
        let Some(file) = file_named(&self.files, name) else {
            count_fault(&mut self.files, &mut self.absent, name);
            return Err(Failed);
        };
        Ok(read_from(file.bytes.as_slice(), from, into))
    }
}

fn file_named<'a>(files: &'a [MemFile], name: &str) -> Option<&'a MemFile>
    ensures { option_copied result ≡ file_of files.now name.now }
{
    files.iter().find(|file| file.name.text() == name)
}

/// Counts a failed read of a name.
fn count_fault(files: &mut [MemFile], absent: &mut u64, name: &str)
    ensures files { files.new ≡ changed faulted files.old name.now }
    ensures absent { absent.new ≡ absent_after absent.old (file_of files.old name.now) }
    ensures told { (q : List ℕ) → told_of (file_of files.new q) ≡ told_of (file_of files.old q) }
    ensures rises { risen (count_of absent.old (file_of files.old name.now)) ≤ count_of absent.new (file_of files.new name.now) }
    ensures never_falls { (q : List ℕ) → count_of absent.old (file_of files.old q) ≤ count_of absent.new (file_of files.new q) }
{
    match place_of(files, name) {
        Some(at) => {
            let file = &mut files[at];
            file.faults = one_more(file.faults);
        }
        None => *absent = one_more(*absent),
    }
}

/// Where the file of a name stands.
fn place_of(files: &[MemFile], name: &str) -> Option<usize>
    ensures { result ≡ position (λ file. bytes_eq file.name name.now) files.now }
{
    files.iter().position(|file| file.name.text() == name)
}

/// Puts the bytes from a place on at the front of `into`, and answers how many.
fn read_from(bytes: &[u8], from: u64, into: &mut [u8]) -> usize
    ensures size { result ≡ min (length into.old) (length (drop from bytes.now)) }
    ensures puts { into.new ≡ take result (drop from bytes.now) ++ drop result into.old }
{
    let start = bytes.len().min(from as usize);
    let left = &bytes[start..];
    let size = into.len().min(left.len());
    put_front(into, left, size);
    size
}
