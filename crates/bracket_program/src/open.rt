//! Opens the text, grammar and bracket files that the words name, each refused with its status.

ghost use Rattle.std.specs.Prelude.{◌≡◌, ◌≤◌, ℕ, List, true, option_map, Some, None, IfOk, IfErr, OnOk};
ghost use Rattle.generator_defs.specs.GeneratedText.{generated_text};
ghost use Rattle.text_defs.specs.Text.{text_of};
ghost use Rattle.session_defs.specs.declared.file_kind.FileKind.TheVariants as kind;
ghost use Rattle.session_defs.specs.Opening.{brackets_of_file, grammar_of_file, is_of_kind, text_name};
ghost use Rattle.bracket_program.specs.Run.{IsFileEnd, Opens, SameCounts, refusal_of};
ghost use Rattle.bracket_program.specs.Opens.{IsNamedEnd, IsOpenEnd, OpensBrackets, OpensDocument, OpensMachine, OpensText, file};
ghost use Rattle.command_line.specs.Subjects.{IsInRange, subject_in};
ghost use Rattle.bracket_program.specs.Sessions.{machine_for};
ghost use Rattle.bracket_program.specs.Texts.{IsKindEnd, ReadsFile};

use crate::status::Status;
use answer_defs::MOST_TAB;
use bracket_lex::Brackets;
use bracket_marks::BracketRefusal;
use command_line::{Request, Subject};
use document::Document;
use grammar_json::{GrammarRefusal, PairRefusal, read_brackets, read_grammar};
use line_machine::Machine;
use line_text::{Text, TextRefusal};
use piece_io::{FileEnd, Files, read_file};
use rule_graph::{Graph, GraphRefusal};
use session_defs::FileKind;
use std::alloc::Global;
use text_defs::MOST_FILE_BYTES;
use text_maker::make_text;
use text_pos::{Bytes, Limits};

/// Opens the files that the words name, one after the other: each is read and then tested before the next. A text that
/// is made has no file.
pub fn open_document<F: Files>(
    alloc: Global,
    files: &mut F,
    request: &Request<'_>,
) -> Result<Document<Machine>, Status>
    requires some_columns { 1 ≤ request.now.limits.tab }
    requires few_columns { request.now.limits.tab ≤ MOST_TAB }
    requires in_range { IsInRange request.now.subject }
    ensures opens { IfOk result (OpensDocument (F.contents files.old) request.now) }
    ensures counts { OnOk result (SameCounts (F.faults files.old) (F.faults files.new)) }
    ensures ends { IfErr result (IsOpenEnd (F.contents files.old) (F.faults files.old) (F.faults files.new) request.now) }
    ensures contents { (q : List ℕ) → F.contents files.new q ≡ F.contents files.old q }
{
    let text = open_text(alloc, files, request.subject)?;
    let machine = open_machine(alloc, files, request.grammar, request.limits)?;
    let brackets = open_brackets(alloc, files, request.brackets)?;
    let document = Document::begin(alloc, text, machine, brackets, request.limits)?;
    Ok(document)
}

/// The text of a file, or the one that is made.
fn open_text<F: Files>(alloc: Global, files: &mut F, subject: Subject<'_>) -> Result<Text, Status>
    requires { IsInRange (subject_in subject) }
    ensures opens { IfOk result (OpensText (F.contents files.old) (subject_in subject.entry)) }
    ensures counts { OnOk result (SameCounts (F.faults files.old) (F.faults files.new)) }
    ensures ends { IfErr result (IsNamedEnd (F.contents files.old) (F.faults files.old) (F.faults files.new) kind.Text (text_name (subject_in subject.entry))) }
    ensures contents { (q : List ℕ) → F.contents files.new q ≡ F.contents files.old q }
{
    match subject {
        Subject::Generated(lines) => Ok(make_text(alloc, lines)?),
        Subject::TextFile(name) => {
            let bytes = read_named(alloc, files, FileKind::Text, name)?;
            text_in(alloc, bytes.as_slice())
        }
    }
}

/// The machine by the grammar of a file; without a file, the one without a grammar.
fn open_machine<F: Files>(
    alloc: Global,
    files: &mut F,
    name: Option<&str>,
    limits: Limits,
) -> Result<Machine, Status>
    ensures opens { IfOk result (OpensMachine (F.contents files.old) (option_map (λ n. n.now) name.entry) limits) }
    ensures counts { OnOk result (SameCounts (F.faults files.old) (F.faults files.new)) }
    ensures ends { IfErr result (IsNamedEnd (F.contents files.old) (F.faults files.old) (F.faults files.new) kind.Grammar (option_map (λ n. n.now) name.entry)) }
    ensures contents { (q : List ℕ) → F.contents files.new q ≡ F.contents files.old q }
{
    match name {
        None => Ok(Machine::plain(alloc, limits)?),
        Some(name) => {
            let bytes = read_named(alloc, files, FileKind::Grammar, name)?;
            machine_in(alloc, bytes.as_slice(), limits)
        }
    }
}

/// The brackets of a file; without a file, those of the usual pairs.
fn open_brackets<F: Files>(
    alloc: Global,
    files: &mut F,
    name: Option<&str>,
) -> Result<Brackets, Status>
    ensures opens { IfOk result (OpensBrackets (F.contents files.old) (option_map (λ n. n.now) name.entry)) }
    ensures counts { OnOk result (SameCounts (F.faults files.old) (F.faults files.new)) }
    ensures ends { IfErr result (IsNamedEnd (F.contents files.old) (F.faults files.old) (F.faults files.new) kind.Brackets (option_map (λ n. n.now) name.entry)) }
    ensures contents { (q : List ℕ) → F.contents files.new q ≡ F.contents files.old q }
{
    match name {
        None => Ok(Brackets::usual(alloc)?),
        Some(name) => {
            let bytes = read_named(alloc, files, FileKind::Brackets, name)?;
            brackets_in(alloc, bytes.as_slice())
        }
    }
}

/// The status of a file that isn't accepted.
fn refusal_of(kind: FileKind) -> Status
    ensures { result ≡ refusal_of kind }
{
    match kind {
        FileKind::Text => Status::TextFile,
        FileKind::Grammar => Status::GrammarFile,
        FileKind::Brackets => Status::BracketFile,
    }
}

/// The bytes of a file.
fn read_named<F: Files>(
    alloc: Global,
    files: &mut F,
    kind: FileKind,
    name: &str,
) -> Result<Bytes, Status>
    ensures reads { IfOk result (ReadsFile (F.contents files.old name.now)) }
    ensures counts { OnOk result (SameCounts (F.faults files.old) (F.faults files.new)) }
    ensures ends { IfErr result (IsFileEnd (F.contents files.old) (F.faults files.old) (F.faults files.new) (file kind name.now)) }
    ensures contents { (q : List ℕ) → F.contents files.new q ≡ F.contents files.old q }
{
    match read_file(alloc, files, name, MOST_FILE_BYTES) {
        Ok(bytes) => Ok(bytes),
        Err(FileEnd::Failed) => Err(Status::ReadFault),
        Err(FileEnd::TooLong { .. }) => Err(refusal_of(kind)),
        Err(FileEnd::Memory(_)) => Err(Status::Memory),
    }
}

fn text_in(alloc: Global, bytes: &[u8]) -> Result<Text, Status>
    ensures text { IfOk result (λ text. text ≡ text_of bytes.now) }
    ensures accepts { OnOk result (is_of_kind kind.Text bytes.now ≡ true) }
    ensures ends { IfErr result (IsKindEnd kind.Text bytes.now) }
{
    match Text::from_bytes(alloc, bytes) {
        Ok(text) => Ok(text),
        Err(TextRefusal::Memory(_)) => Err(Status::Memory),
        Err(_) => Err(Status::TextFile),
    }
}

fn machine_in(alloc: Global, bytes: &[u8], limits: Limits) -> Result<Machine, Status>
    ensures machine { IfOk result (λ m. m ≡ machine_for limits (grammar_of_file bytes.now)) }
    ensures accepts { OnOk result (is_of_kind kind.Grammar bytes.now ≡ true) }
    ensures ends { IfErr result (IsKindEnd kind.Grammar bytes.now) }
{
    let grammar = match read_grammar(alloc, bytes) {
        Ok(grammar) => grammar,
        Err(GrammarRefusal::Memory) => return Err(Status::Memory),
        Err(_) => return Err(Status::GrammarFile),
    };
    let graph = match Graph::build(alloc, &grammar) {
        Ok(graph) => graph,
        Err(GraphRefusal::Memory) => return Err(Status::Memory),
        Err(GraphRefusal::TooWide { .. }) => return Err(Status::GrammarFile),
    };
    let unread = graph.unread();
    let machine = Machine::new(
        alloc,
        graph.into_table(),
        grammar.scope.text(),
        unread,
        limits,
    )?;
    Ok(machine)
}

fn brackets_in(alloc: Global, bytes: &[u8]) -> Result<Brackets, Status>
    ensures brackets { IfOk result (λ texts. Some texts ≡ brackets_of_file bytes.now) }
    ensures ends { IfErr result (IsKindEnd kind.Brackets bytes.now) }
{
    let pairs = match read_brackets(alloc, bytes) {
        Ok(pairs) => pairs,
        Err(PairRefusal::Memory) => return Err(Status::Memory),
        Err(_) => return Err(Status::BracketFile),
    };
    match Brackets::new(alloc, &pairs) {
        Ok(brackets) => Ok(brackets),
        Err(BracketRefusal::Memory) => Err(Status::Memory),
        Err(_) => Err(Status::BracketFile),
    }
}
