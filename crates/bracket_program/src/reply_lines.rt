//! Answers each line of the script with a reply, and applies its edits to the document.

ghost use Rattle.std.specs.Prelude.{◌≡◌, ◌≤◌, map, false, None, IfOk, IfErr, OnOk, OnErr};
ghost use Rattle.text_defs.specs.Batch.{batch_refusal, edited};
ghost use Rattle.piece_io.specs.Told.{appended};
ghost use Rattle.piece_io.specs.Cuts.{next_cut};
ghost use Rattle.script_words.specs.ReplyText.{reply_text};
ghost use Rattle.session_defs.specs.Session.{command_step, edit_step, reading_step, replies_to, text_behind};
ghost use Rattle.bracket_program.specs.Lines.{cut_reading, given, last_of};
ghost use Rattle.bracket_program.specs.Ends.{IsReplyEnd, WritesFront};
ghost use Rattle.bracket_program.specs.Sessions.{settings_in};

use crate::status::Status;
use document::{AskRefusal, Document};
use line_machine::Machine;
use line_text::{Edit, EditRefusal};
use piece_io::{Cut, LineCutter, Sink, write_whole};
use script_words::{Command, CommandRefusal, Refusal, Reply};
use std::alloc::{AllocError, Global};

/// Answers each line that the cutter hands out.
pub fn reply_to_lines<K: Sink>(
    alloc: Global,
    document: &mut Document<Machine>,
    cutter: &mut LineCutter,
    sink: &mut K,
) -> Result<(), Status>
    ensures writes { OnOk result (K.held sink.new ≡ appended (K.held sink.old)
        (replies_to (settings_in document.old) document.old.text (map cut_reading (given cutter.old)))) }
    ensures counts { OnOk result (K.faults sink.new ≡ K.faults sink.old) }
    ensures text { OnOk result (document.new.text ≡ text_behind (settings_in document.old) document.old.text (map cut_reading (given cutter.old))) }
    ensures settings { settings_in document.new ≡ settings_in document.old }
    ensures none_left { OnOk result (next_cut cutter.new ≡ None) }
    ensures ended { OnOk result (cutter.new.ended ≡ cutter.old.ended) }
    ensures unfinished { OnOk result (cutter.old.ended ≡ false → last_of cutter.new.cuts ≡ last_of cutter.old.cuts) }
    ensures front { OnErr result (WritesFront (K.held sink.old) (K.held sink.new)
        (replies_to (settings_in document.old) document.old.text (map cut_reading (given cutter.old)))) }
    ensures ends { IfErr result (IsReplyEnd (K.faults sink.old) (K.faults sink.new)) }
    ensures never_falls { K.faults sink.old ≤ K.faults sink.new }
{
    while let Some(cut) = cutter.next_line()? {
        reply_to(alloc, document, &cut, sink)?;
    }
    Ok(())
}

/// Answers a line.
fn reply_to<K: Sink>(
    alloc: Global,
    document: &mut Document<Machine>,
    cut: &Cut,
    sink: &mut K,
) -> Result<(), Status>
    ensures writes { OnOk result (K.held sink.new ≡ appended (K.held sink.old)
        (reply_text (reading_step (settings_in document.old) document.old.text (cut_reading cut.now)).reply)) }
    ensures counts { OnOk result (K.faults sink.new ≡ K.faults sink.old) }
    ensures text { OnOk result (document.new.text ≡ (reading_step (settings_in document.old) document.old.text (cut_reading cut.now)).text) }
    ensures settings { settings_in document.new ≡ settings_in document.old }
    ensures front { OnErr result (WritesFront (K.held sink.old) (K.held sink.new)
        (reply_text (reading_step (settings_in document.old) document.old.text (cut_reading cut.now)).reply)) }
    ensures ends { IfErr result (IsReplyEnd (K.faults sink.old) (K.faults sink.new)) }
    ensures never_falls { K.faults sink.old ≤ K.faults sink.new }
{
    let reply = respond(alloc, document, cut)?;
    write_reply(alloc, sink, &reply)?;
    Ok(())
}

/// Hands a reply to the sink.
pub fn write_reply<K: Sink>(alloc: Global, sink: &mut K, reply: &Reply) -> Result<(), Status>
    ensures ok { OnOk result (K.held sink.new ≡ appended (K.held sink.old) (reply_text reply.now)) }
    ensures counts { OnOk result (K.faults sink.new ≡ K.faults sink.old) }
    ensures front { OnErr result (WritesFront (K.held sink.old) (K.held sink.new) (reply_text reply.now)) }
    ensures ends { IfErr result (IsReplyEnd (K.faults sink.old) (K.faults sink.new)) }
    ensures never_falls { K.faults sink.old ≤ K.faults sink.new }
{
    let line = reply.write(alloc)?;
    match write_whole(sink, line.as_slice()) {
        Ok(()) => Ok(()),
        Err(_) => Err(Status::WriteFault),
    }
}

/// The reply to a line, and what it does to the document.
fn respond(alloc: Global, document: &mut Document<Machine>, cut: &Cut) -> Result<Reply, AllocError>
    ensures reply { IfOk result (λ r. r ≡ (reading_step (settings_in document.old) document.old.text (cut_reading cut.now)).reply) }
    ensures text { OnOk result (document.new.text ≡ (reading_step (settings_in document.old) document.old.text (cut_reading cut.now)).text) }
    ensures settings { settings_in document.new ≡ settings_in document.old }
{
    let Cut::Line(line) = cut else {
        return Ok(Reply::Refused(Refusal::Long));
    };
    match Command::read(alloc, line.as_slice()) {
        Ok(command) => obey(alloc, document, &command),
        Err(CommandRefusal::Json) => Ok(Reply::Refused(Refusal::Json)),
        Err(CommandRefusal::Command) => Ok(Reply::Refused(Refusal::Command)),
        Err(CommandRefusal::Memory(error)) => Err(error),
    }
}

fn obey(
    alloc: Global,
    document: &mut Document<Machine>,
    command: &Command,
) -> Result<Reply, AllocError>
    ensures reply { IfOk result (λ r. r ≡ (command_step (settings_in document.old) document.old.text command.now).reply) }
    ensures text { OnOk result (document.new.text ≡ (command_step (settings_in document.old) document.old.text command.now).text) }
    ensures settings { settings_in document.new ≡ settings_in document.old }
{
    match command {
        Command::Edit(edits) => edit(alloc, document, edits.as_slice()),
        Command::Turn(_) => Ok(Reply::Turned),
        Command::Ask(question) => match document.ask(alloc, question) {
            Ok(answer) => Ok(Reply::Answered(answer)),
            Err(AskRefusal::Line { .. }) => Ok(Reply::Refused(Refusal::Line)),
            Err(AskRefusal::Place { .. }) => Ok(Reply::Refused(Refusal::Place)),
            Err(AskRefusal::Memory(error)) => Err(error),
        },
    }
}

fn edit(
    alloc: Global,
    document: &mut Document<Machine>,
    edits: &[Edit],
) -> Result<Reply, AllocError>
    ensures reply { IfOk result (λ r. r ≡ (edit_step document.old.text (edited document.old.text edits.now) (batch_refusal document.old.text edits.now)).reply) }
    ensures text { OnOk result (document.new.text ≡ (edit_step document.old.text (edited document.old.text edits.now) (batch_refusal document.old.text edits.now)).text) }
    ensures settings { settings_in document.new ≡ settings_in document.old }
{
    match document.edit(alloc, edits) {
        Ok(lines) => Ok(Reply::Edited(lines)),
        Err(EditRefusal::Range { .. }) => Ok(Reply::Refused(Refusal::Range)),
        Err(EditRefusal::Order { .. }) => Ok(Reply::Refused(Refusal::Order)),
        Err(EditRefusal::TooManyChars { .. }) => Ok(Reply::Refused(Refusal::Chars)),
        Err(EditRefusal::TooManyLines { .. }) => Ok(Reply::Refused(Refusal::Lines)),
        Err(EditRefusal::Memory(error)) => Err(error),
    }
}
