//! Answers the whole script: reads it by pieces, and writes the open reply and then one for each line.

ghost use Rattle.std.specs.Prelude.{◌≡◌, ◌≤◌, ◌<◌, ◌+◌, length, IfOk, IfErr, OnOk, OnErr};
ghost use Rattle.piece_io.specs.Told.{GivesFront, risen};
ghost use Rattle.session_defs.specs.Session.{opened};
ghost use Rattle.bracket_program.specs.Ends.{IsDone, IsEnd, outside};
ghost use Rattle.bracket_program.specs.Sessions.{session_in};

use crate::reply_lines::{reply_to_lines, write_reply};
use crate::status::Status;
use document::Document;
use line_machine::Machine;
use piece_io::whole::PIECE;
use piece_io::{Failed, LineCutter, Sink, Source};
use script_words::Reply;
use session_defs::MOST_SCRIPT_BYTES;
use std::alloc::{AllocError, Global};

/// Answers the whole script: the open reply, and then each line as it comes.
pub fn serve<S: Source, K: Sink>(
    alloc: Global,
    document: &mut Document<Machine>,
    script: &mut S,
    sink: &mut K,
) -> Result<(), Status>
    ensures done { OnOk result (IsDone (outside (S.left script.old) (K.held sink.old) (S.faults script.old) (K.faults sink.old))
        (outside (S.left script.new) (K.held sink.new) (S.faults script.new) (K.faults sink.new)) (session_in document.old)) }
    ensures ends { IfErr result (IsEnd (outside (S.left script.old) (K.held sink.old) (S.faults script.old) (K.faults sink.old))
        (outside (S.left script.new) (K.held sink.new) (S.faults script.new) (K.faults sink.new)) (session_in document.old)) }
    ensures reads_never_fall { S.faults script.old ≤ S.faults script.new }
    ensures writes_never_fall { K.faults sink.old ≤ K.faults sink.new }
{
    let mut cutter = LineCutter::new(alloc)?;
    let mut buffer = make_buffer(alloc)?;
    let piece = buffer.as_mut_slice();
    write_reply(alloc, sink, &opened(document))?;
    let mut taken: u64 = 0;
    while taken < MOST_SCRIPT_BYTES {
        let Ok(come) = read_piece(script, piece, room_for(taken)) else {
            return Err(Status::ReadFault);
        };
        if come == 0 {
            cutter.end();
            reply_to_lines(alloc, document, &mut cutter, sink)?;
            return Ok(());
        }
        cutter.feed(&piece[..come])?;
        reply_to_lines(alloc, document, &mut cutter, sink)?;
        taken += come as u64;
    }
    Err(Status::ScriptFull)
}

/// Reads at most so many bytes into the front of a buffer.
fn read_piece<S: Source>(script: &mut S, buffer: &mut [u8], room: usize) -> Result<usize, Failed>
    requires some { 0 < room }
    requires fits { room ≤ length buffer.old }
    ensures within { IfOk result (λ n. n ≤ room) }
    ensures gives { IfOk result (λ n. GivesFront (S.left script.old) (S.left script.new) n buffer.new) }
    ensures stays { OnErr result (S.left script.new ≡ S.left script.old) }
    ensures counts { OnOk result (S.faults script.new ≡ S.faults script.old) }
    ensures rises { OnErr result (risen (S.faults script.old) ≤ S.faults script.new) }
    ensures never_falls { S.faults script.old ≤ S.faults script.new }
{
    let come = script.read(&mut buffer[..room])?;
    Ok(come)
}

/// The open reply.
fn opened(document: &Document<Machine>) -> Reply
    ensures { result ≡ opened (session_in document.now) }
{
    Reply::Opened {
        lines: document.text().lines(),
        unread: document.machine().unread(),
    }
}

/// A buffer for a piece of the script.
fn make_buffer(alloc: Global) -> Result<Vec<u8>, AllocError>
    ensures { IfOk result (λ v. length v.items ≡ PIECE) }
{
    vec![in alloc; 0; PIECE]
}

/// How many bytes may be asked for, where so many were taken.
fn room_for(taken: u64) -> usize
    requires { taken < MOST_SCRIPT_BYTES }
    ensures some { 0 < result }
    ensures piece { result ≤ PIECE }
    ensures most { taken + result ≤ MOST_SCRIPT_BYTES }
{
    let left = MOST_SCRIPT_BYTES - taken;
    if left < PIECE as u64 {
        left as usize
    } else {
        PIECE
    }
}
