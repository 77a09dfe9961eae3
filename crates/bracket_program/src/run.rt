//! The whole run of the program: from words, files and a script to what is written and a status.

ghost use Rattle.std.specs.Prelude.{◌≡◌, ◌⊎◌, ◌<◌, ◌≤◌, ℕ, List, map, length, None, Some, IfSome, string_bytes};
ghost use Rattle.piece_io.specs.Told.{risen};
ghost use Rattle.session_defs.specs.declared.file_kind.FileKind.{FileKind};
ghost use Rattle.session_defs.specs.Words.{request_of};
ghost use Rattle.session_defs.specs.Opening.{Inputs, files_of};
ghost use Rattle.session_defs.specs.Output.{most_script_bytes};
ghost use Rattle.bracket_program.specs.Ends.{IsTextEnd, LeavesScript, outside};
ghost use Rattle.bracket_program.specs.Opens.{IsMadeText};
ghost use Rattle.bracket_program.specs.Run.{AllAccepted, AllStand, AnswersAll, AnswersTaken, CannotOpen, FailedAt, FilesStand, FirstRefused, HasShortScript, IfMade, IfScripted, IsRun, IsScripted, IsUntouched, RefusedAt, SameCounts, Some_, WritesSome, refusal_of};
ghost use Rattle.bracket_program.specs.Sessions.{session_in};
ghost use Rattle.command_line.specs.Subjects.{IsInRange, subject_in};

use crate::open::open_document;
use crate::serve::serve;
use crate::status::Status;
use crate::summaries::tell;
use command_line::{Subject, read_words};
use document::Document;
use line_machine::Machine;
use piece_io::{Files, Sink, Source};
use std::alloc::Global;
use std::sync::ledger::Ledger;
use step_count::Steps;

/// Does all that the program does: opens the files that the words name, answers the script line by line, or tells of a
/// text that is made, and says how that ended. A file, a script or a sink may tell what it holds or not; what is said of
/// contents holds where they are told. No step and no mark is counted yet.
pub fn run<F: Files, S: Source, K: Sink, L: Ledger, M: Ledger>(
    alloc: Global,
    words: &[String],
    files: &mut F,
    script: &mut S,
    sink: &mut K,
    steps: &mut Steps<L>,
    marks: &mut Steps<M>,
) -> Status
    // All that is told of each status. What follows are its parts, each in its own words, and beside it `contents`,
    // `steps` and `marks`.
    ensures ends { IsRun (F.contents files.old) (F.faults files.old) (F.faults files.new)
        (outside (S.left script.old) (K.held sink.old) (S.faults script.old) (K.faults sink.old))
        (outside (S.left script.new) (K.held sink.new) (S.faults script.new) (K.faults sink.new))
        (request_of (map string_bytes words.now)) result }

    // The headline: what is written is, line by line, the reply that running the whole text by the grammar's rules from
    // its first line, and pairing it anew, gives; of a text that is made, what is told of it in passing.
    ensures done { result ≡ Status.Done → IfSome (request_of (map string_bytes words.now)) (AnswersAll (F.contents files.old)
        (outside (S.left script.old) (K.held sink.old) (S.faults script.old) (K.faults sink.old))
        (outside (S.left script.new) (K.held sink.new) (S.faults script.new) (K.faults sink.new))) }

    // What each other status comes from, and what was written then.
    ensures words { result ≡ Status.Words → request_of (map string_bytes words.now) ≡ None }
    ensures no_words { request_of (map string_bytes words.now) ≡ None → ((result ≡ Status.Words) ⊎ (result ≡ Status.Memory)) × IsUntouched
        (outside (S.left script.old) (K.held sink.old) (S.faults script.old) (K.faults sink.old))
        (outside (S.left script.new) (K.held sink.new) (S.faults script.new) (K.faults sink.new)) }
    ensures refused { (kind : FileKind) → result ≡ refusal_of kind → IfSome (request_of (map string_bytes words.now)) (λ r.
        RefusedAt (F.contents files.old) kind (files_of r)) }
    ensures read_fault { result ≡ Status.ReadFault → IfSome (request_of (map string_bytes words.now)) (λ r.
        (FailedAt (F.contents files.old) (F.faults files.old) (F.faults files.new) (files_of r) × IsUntouched
        (outside (S.left script.old) (K.held sink.old) (S.faults script.old) (K.faults sink.old))
        (outside (S.left script.new) (K.held sink.new) (S.faults script.new) (K.faults sink.new)))
        ⊎ ((risen (S.faults script.old) ≤ S.faults script.new) × AnswersTaken (F.contents files.old)
        (outside (S.left script.old) (K.held sink.old) (S.faults script.old) (K.faults sink.old))
        (outside (S.left script.new) (K.held sink.new) (S.faults script.new) (K.faults sink.new)) (λ taken. length taken < most_script_bytes) r)) }
    ensures write_fault { result ≡ Status.WriteFault → risen (K.faults sink.old) ≤ K.faults sink.new }
    ensures script_full { result ≡ Status.ScriptFull → IfSome (request_of (map string_bytes words.now)) (AnswersTaken (F.contents files.old)
        (outside (S.left script.old) (K.held sink.old) (S.faults script.old) (K.faults sink.old))
        (outside (S.left script.new) (K.held sink.new) (S.faults script.new) (K.faults sink.new)) (λ taken. length taken ≡ most_script_bytes)) }
    ensures untouched { (result ≡ Status.Words) ⊎ ((kind : FileKind) × (result ≡ refusal_of kind)) → IsUntouched
        (outside (S.left script.old) (K.held sink.old) (S.faults script.old) (K.faults sink.old))
        (outside (S.left script.new) (K.held sink.new) (S.faults script.new) (K.faults sink.new)) }
    ensures front { (result ≡ Status.WriteFault) ⊎ (result ≡ Status.Memory)
        → IfSome (request_of (map string_bytes words.now)) (WritesSome (F.contents files.old)
        (outside (S.left script.old) (K.held sink.old) (S.faults script.old) (K.faults sink.old))
        (outside (S.left script.new) (K.held sink.new) (S.faults script.new) (K.faults sink.new))) }

    // When it succeeds, and when each refusal has to come.
    ensures completes { IfSome (request_of (map string_bytes words.now)) (λ r. AllAccepted (F.contents files.old) r
        → IfScripted r.subject (HasShortScript (outside (S.left script.old) (K.held sink.old) (S.faults script.old) (K.faults sink.old)))
        → AllStand (F.faults files.old) (F.faults files.new)
        (outside (S.left script.old) (K.held sink.old) (S.faults script.old) (K.faults sink.old))
        (outside (S.left script.new) (K.held sink.new) (S.faults script.new) (K.faults sink.new)) r
        → (result ≡ Status.Done) ⊎ (result ≡ Status.Memory)) }
    ensures refuses { (kind : FileKind) → IfSome (request_of (map string_bytes words.now)) (λ r.
        FirstRefused (F.contents files.old) kind (files_of r) → FilesStand (F.faults files.old) (F.faults files.new) r
        → (result ≡ refusal_of kind) ⊎ (result ≡ Status.Memory)) }
    ensures fills { IfSome (request_of (map string_bytes words.now)) (λ r. (bytes : List ℕ) → IsScripted r.subject → AllAccepted (F.contents files.old) r
        → S.left script.old ≡ Some bytes → most_script_bytes ≤ length bytes
        → AllStand (F.faults files.old) (F.faults files.new)
        (outside (S.left script.old) (K.held sink.old) (S.faults script.old) (K.faults sink.old))
        (outside (S.left script.new) (K.held sink.new) (S.faults script.new) (K.faults sink.new)) r
        → (result ≡ Status.ScriptFull) ⊎ (result ≡ Status.Memory)) }

    // Where a text is made, no script is read.
    ensures made { IfSome (request_of (map string_bytes words.now)) (λ r. IfMade r.subject (LeavesScript
        (outside (S.left script.old) (K.held sink.old) (S.faults script.old) (K.faults sink.old))
        (outside (S.left script.new) (K.held sink.new) (S.faults script.new) (K.faults sink.new)))) }

    // A fault ends the run.
    ensures file_rise { IfSome (request_of (map string_bytes words.now)) (λ r.
        Some_ (λ f. F.faults files.old f.name < F.faults files.new f.name) (files_of r) → result ≡ Status.ReadFault) }
    ensures script_rise { S.faults script.old < S.faults script.new → result ≡ Status.ReadFault }
    ensures sink_rise { K.faults sink.old < K.faults sink.new → result ≡ Status.WriteFault }

    // But at a read fault no read of any file failed; and where a file that is named cannot be opened, no script is read
    // and nothing is written.
    ensures files_stand { ¬ (result ≡ Status.ReadFault) → SameCounts (F.faults files.old) (F.faults files.new) }
    ensures unopened { IfSome (request_of (map string_bytes words.now)) (λ r.
        Some_ (λ f. CannotOpen (F.contents files.old f.name) f.kind) (files_of r) → IsUntouched
        (outside (S.left script.old) (K.held sink.old) (S.faults script.old) (K.faults sink.old))
        (outside (S.left script.new) (K.held sink.new) (S.faults script.new) (K.faults sink.new))) }

    ensures contents { (q : List ℕ) → F.contents files.new q ≡ F.contents files.old q }
    ensures steps { steps.new ≡ steps.old }
    ensures marks { marks.new ≡ marks.old }
{
    run_to_end(alloc, words, files, script, sink)
}

/// Runs for these words, to whatever end that comes to.
fn run_to_end<F: Files, S: Source, K: Sink>(
    alloc: Global,
    words: &[String],
    files: &mut F,
    script: &mut S,
    sink: &mut K,
) -> Status
    ensures ends { IsRun (F.contents files.old) (F.faults files.old) (F.faults files.new)
        (outside (S.left script.old) (K.held sink.old) (S.faults script.old) (K.faults sink.old))
        (outside (S.left script.new) (K.held sink.new) (S.faults script.new) (K.faults sink.new))
        (request_of (map string_bytes words.now)) result }
    ensures contents { (q : List ℕ) → F.contents files.new q ≡ F.contents files.old q }
{
    let asked = match read_words(alloc, words) {
        Err(_) => {
            return Status::Memory;
        }
        Ok(asked) => asked,
    };
    let Some(request) = asked else {
        return Status::Words;
    };
    match open_document(alloc, files, &request) {
        Ok(mut document) => answer(alloc, request.subject, &mut document, script, sink),
        Err(status) => status,
    }
}

/// Answers the script, or tells of the text that is made.
fn answer<S: Source, K: Sink>(
    alloc: Global,
    subject: Subject<'_>,
    document: &mut Document<Machine>,
    script: &mut S,
    sink: &mut K,
) -> Status
    requires in_range { IsInRange (subject_in subject) }
    requires made { IsMadeText (subject_in subject) document.old.text }
    ensures ends { IsTextEnd (outside (S.left script.old) (K.held sink.old) (S.faults script.old) (K.faults sink.old))
        (outside (S.left script.new) (K.held sink.new) (S.faults script.new) (K.faults sink.new))
        (subject_in subject.entry) (session_in document.old) result }
{
    match subject {
        Subject::TextFile(_) => match serve(alloc, document, script, sink) {
            Ok(()) => Status::Done,
            Err(status) => status,
        },
        Subject::Generated(lines) => match tell(alloc, document, lines, sink) {
            Ok(()) => Status::Done,
            Err(status) => status,
        },
    }
}
