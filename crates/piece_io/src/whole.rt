//! Reads a file whole, up to a limit of its bytes, and writes bytes whole to a sink.

ghost use Rattle.std.specs.Prelude.{◌≡◌, ℕ, ◌+◌, ◌^◌, ◌<◌, ◌≤◌, List, length, take, IfOk, OnOk, OnErr};
ghost use Rattle.piece_io.specs.Told.{appended, risen};
ghost use Rattle.piece_io.specs.FileEnds.{ReadsWhole, IsTooLong, IfTooLong, OnFailed, UnlessFailed};

use crate::files::Files;
use crate::sink::Sink;
use crate::source::Failed;
use std::alloc::{AllocError, Global};
use text_defs::MOST_FILE_BYTES;
use text_pos::Bytes;
use thiserror::Error;

/// Why a file could not be read whole.
#[derive(Debug, Drop, Error)]
pub enum FileEnd {
    /// A read of it failed.
    #[error("Failed")]
    Failed,
    /// It has more bytes than it may have, of which so many have come.
    #[error("TooLong")]
    TooLong { taken: u64 },
    /// Memory was wanting.
    #[error("Memory")]
    Memory(AllocError),
}

/// How many bytes are asked for at once.
pub const PIECE: usize = 65_536;

/// The bytes of a file of at most `most` bytes. A longer one is refused as soon as more bytes have come,
/// and `taken` is how many have.
pub fn read_file<F: Files>(
    alloc: Global,
    files: &mut F,
    name: &str,
    most: u64,
) -> Result<Bytes, FileEnd>
    requires { most ≤ MOST_FILE_BYTES }
    ensures ok { IfOk result (ReadsWhole (F.contents files.old name.now) most) }
    ensures too_long { IfTooLong result (λ taken. (most < taken)
        × IsTooLong (F.contents files.old name.now) most taken) }
    ensures soon { IfTooLong result (λ taken. taken ≤ most + PIECE) }
    ensures failed { OnFailed result (risen (F.faults files.old name.now) ≤ F.faults files.new name.now) }
    ensures counts { UnlessFailed result ((q : List ℕ) → F.faults files.new q ≡ F.faults files.old q) }
    ensures never_falls { (q : List ℕ) → F.faults files.old q ≤ F.faults files.new q }
    ensures contents_stay { (q : List ℕ) → F.contents files.new q ≡ F.contents files.old q }
{
    let mut buffer = zeros(alloc, PIECE).map_err(FileEnd::Memory)?;
    let piece = buffer.as_mut_slice();
    let mut bytes = Bytes::new(alloc);
    let mut taken: u64 = 0;
    while taken <= most {
        let Ok(come) = files.read_at(name, taken, piece) else {
            return Err(FileEnd::Failed);
        };
        if come == 0 {
            return Ok(bytes);
        }
        bytes.append(&piece[..come]).map_err(FileEnd::Memory)?;
        taken += come as u64;
    }
    Err(FileEnd::TooLong { taken })
}

fn zeros(alloc: Global, len: usize) -> Result<Vec<u8>, AllocError>
    ensures { IfOk result (λ v. length v.items ≡ len) }
{
    vec![in alloc; 0; len]
}

/// Hands the bytes to the sink, until it has taken them all or fails.
pub fn write_whole<K: Sink>(sink: &mut K, bytes: &[u8]) -> Result<(), Failed>
    ensures ok { OnOk result (K.held sink.new ≡ appended (K.held sink.old) bytes.now) }
    ensures counts { OnOk result (K.faults sink.new ≡ K.faults sink.old) }
    ensures prefix { OnErr result ((n : ℕ) × (n ≤ length bytes.now)
        × (K.held sink.new ≡ appended (K.held sink.old) (take n bytes.now))) }
    ensures rises { OnErr result (risen (K.faults sink.old) ≤ K.faults sink.new) }
    ensures never_falls { K.faults sink.old ≤ K.faults sink.new }
{
    let mut done = 0;
    while done < bytes.len() {
        done += sink.write(&bytes[done..])?;
    }
    Ok(())
}
