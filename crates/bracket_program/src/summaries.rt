//! Tells of a generated text: a summary at first, and one behind each fiftieth of its edits.

ghost use Rattle.std.specs.Prelude.{◌≡◌, ◌≤◌, ◌<◌, ◌+◌, [], ◌∷◌, None, IfOk, IfErr, OnErr, OnOk};
ghost use Rattle.line_text.specs.BatchRefusals.{HasCause};
ghost use Rattle.piece_io.specs.Told.{appended};
ghost use Rattle.generator_defs.specs.GeneratedText.{generated_edit, generated_text, text_after};
ghost use Rattle.session_defs.specs.MadeOutput.{made_output, summary_line};
ghost use Rattle.bracket_program.specs.Ends.{IsReplyEnd, WritesFront};
ghost use Rattle.bracket_program.specs.Sessions.{settings_in};

use crate::reply_lines::write_reply;
use crate::status::Status;
use document::{Document, summary_of};
use generator_defs::{EDITS_OF_A_SUMMARY, GENERATED_EDITS, MOST_GENERATED_LINES};
use line_machine::Machine;
use line_text::{EditRefusal, Edits, Text};
use piece_io::Sink;
use script_words::Reply;
use std::alloc::{AllocError, Global};
use text_maker::make_edit;

/// How many summaries stand behind the first, each behind edits of its own.
const ROUNDS: u32 = GENERATED_EDITS / EDITS_OF_A_SUMMARY;

/// Tells of a text of so many lines that was made: at first, and behind each fiftieth of the edits that are made of it.
pub fn tell<K: Sink>(
    alloc: Global,
    document: &mut Document<Machine>,
    lines: u32,
    sink: &mut K,
) -> Result<(), Status>
    requires some { 1 ≤ lines }
    requires few { lines ≤ MOST_GENERATED_LINES }
    requires at_first { document.old.text ≡ generated_text lines }
    ensures writes { OnOk result (K.held sink.new ≡ appended (K.held sink.old) (made_output (settings_in document.old) lines)) }
    ensures counts { OnOk result (K.faults sink.new ≡ K.faults sink.old) }
    ensures front { OnErr result (WritesFront (K.held sink.old) (K.held sink.new) (made_output (settings_in document.old) lines)) }
    ensures ends { IfErr result (IsReplyEnd (K.faults sink.old) (K.faults sink.new)) }
{
    write_summary(alloc, document, sink)?;
    let mut round: u32 = 0;
    while round < ROUNDS {
        make_edits(alloc, document, lines, EDITS_OF_A_SUMMARY * round)?;
        write_summary(alloc, document, sink)?;
        round += 1;
    }
    Ok(())
}

/// Writes what is told of the text at hand.
fn write_summary<K: Sink>(
    alloc: Global,
    document: &mut Document<Machine>,
    sink: &mut K,
) -> Result<(), Status>
    ensures writes { OnOk result (K.held sink.new ≡ appended (K.held sink.old) (summary_line (settings_in document.old) document.old.text)) }
    ensures counts { OnOk result (K.faults sink.new ≡ K.faults sink.old) }
    ensures text { document.new.text ≡ document.old.text }
    ensures settings { settings_in document.new ≡ settings_in document.old }
    ensures front { OnErr result (WritesFront (K.held sink.old) (K.held sink.new) (summary_line (settings_in document.old) document.old.text)) }
    ensures ends { IfErr result (IsReplyEnd (K.faults sink.old) (K.faults sink.new)) }
{
    let rows = document.rows(alloc)?;
    let made = summary_of(&rows, document.text().lines());
    write_reply(alloc, sink, &Reply::Made(made))?;
    Ok(())
}

/// Makes the edits up to the next summary, behind so many.
fn make_edits(
    alloc: Global,
    document: &mut Document<Machine>,
    lines: u32,
    behind: u32,
) -> Result<(), AllocError>
    requires some { 1 ≤ lines }
    requires few { lines ≤ MOST_GENERATED_LINES }
    requires left { behind + EDITS_OF_A_SUMMARY ≤ GENERATED_EDITS }
    requires text { document.old.text ≡ text_after lines behind }
    ensures text { OnOk result (document.new.text ≡ text_after lines (behind + EDITS_OF_A_SUMMARY)) }
    ensures settings { settings_in document.new ≡ settings_in document.old }
{
    let mut made = behind;
    while made < behind + EDITS_OF_A_SUMMARY {
        make_next(alloc, document, lines, made)?;
        made += 1;
    }
    Ok(())
}

/// Makes the edit behind so many.
fn make_next(
    alloc: Global,
    document: &mut Document<Machine>,
    lines: u32,
    made: u32,
) -> Result<(), AllocError>
    requires some { 1 ≤ lines }
    requires few { lines ≤ MOST_GENERATED_LINES }
    requires left { made < GENERATED_EDITS }
    requires text { document.old.text ≡ text_after lines made }
    ensures text { OnOk result (document.new.text ≡ text_after lines (made + 1)) }
    ensures settings { settings_in document.new ≡ settings_in document.old }
{
    let edits = next_edit(alloc, lines, made, document.text())?;
    match document.edit(alloc, edits.as_slice()) {
        Ok(_) => Ok(()),
        Err(refusal) => Err(want_of_memory(refusal)),
    }
}

/// The batch of the edit behind so many, of the text at hand.
fn next_edit(alloc: Global, lines: u32, made: u32, text: &Text) -> Result<Edits, AllocError>
    requires few { lines ≤ MOST_GENERATED_LINES }
    requires left { made < GENERATED_EDITS }
    ensures { IfOk result (λ edits. edits ≡ generated_edit lines (made + 1) text.now ∷ []) }
{
    let mut edits = Edits::new(alloc);
    edits.push(make_edit(alloc, lines, made + 1, text)?)?;
    Ok(edits)
}

/// A batch that has no cause to be refused is refused only for want of memory.
fn want_of_memory(refusal: EditRefusal) -> AllocError
    requires { HasCause None refusal }
{
    match refusal {
        EditRefusal::Memory(error) => error,
        EditRefusal::Range { .. } => unreachable!(),
        EditRefusal::Order { .. } => unreachable!(),
        EditRefusal::TooManyChars { .. } => unreachable!(),
        EditRefusal::TooManyLines { .. } => unreachable!(),
    }
}
