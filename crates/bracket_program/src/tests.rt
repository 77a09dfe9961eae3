//! Tests show the worked replies of sessions, whole replies where reads or writes fail, and the limits.

ghost use Rattle.std.specs.Prelude.{◌≡◌, ◌<◌, None};

use crate::adapters::FileStore;
use crate::run::run;
use crate::status::Status;
use piece_io::{Failed, Files, MemFiles, MemSink, MemSource, Sink, Source};
use std::alloc::{AllocError, Global};
use std::marker::Brand;
use std::process::Abort;
use std::sync::ledger::{Blank, Ledger};
use std::test::Fail;
use step_count::Steps;

/// A run in memory: the words behind the program's name, the bytes of the file `text`, where there is one,
/// and the script; and what it must write, and its status.
#[derive(Drop)]
struct Case<'a> {
    words: &'a [&'a str],
    text: Option<&'a [u8]>,
    script: &'a [u8],
    wrote: &'a [u8],
    status: Status,
}

/// The status, and the sink with what was written.
fn run_case(
    alloc: Global,
    case: &Case,
    failing_reads: &[u32],
    failing_writes: &[u32],
) -> Result<(Status, MemSink), AllocError> {
    let mut script = MemSource::new(alloc, case.script, 65_536, failing_reads)?;
    let mut sink = MemSink::new(alloc, 1 << 20, 65_536, failing_writes)?;
    let mut files = files_with(alloc, case.text)?;
    let status = run_over(alloc, case.words, &mut files, &mut script, &mut sink)?;
    Ok((status, sink))
}

/// The file `text`, where there is one.
fn files_with(alloc: Global, text: Option<&[u8]>) -> Result<MemFiles, AllocError> {
    let mut files = MemFiles::new(alloc, &[])?;
    if let Some(bytes) = text {
        files.put("text", bytes)?;
    }
    Ok(files)
}

pub(crate) fn run_over<S: Source, K: Sink>(
    alloc: Global,
    words: &[&str],
    files: &mut MemFiles,
    script: &mut S,
    sink: &mut K,
) -> Result<Status, AllocError> {
    let mut named = Vec::new(alloc);
    named.push(String::from_str(alloc, "brackets")?)?;
    for word in words {
        named.push(String::from_str(alloc, word)?)?;
    }
    let words = named.as_slice();
    let (steps, marks) = (Blank::new(1), Blank::new(1));
    let status = run_counted::<Brand, Brand, S, K>(alloc, words, files, script, sink, steps, marks);
    Ok(status)
}

fn run_counted<L: Ledger, M: Ledger, S: Source, K: Sink>(
    alloc: Global,
    words: &[String],
    files: &mut MemFiles,
    script: &mut S,
    sink: &mut K,
    steps: Blank,
    marks: Blank,
) -> Status
    requires steps_name { steps.name ≡ L.name }
    requires steps_parts { steps.parts ≡ L.parts }
    requires steps_some { 0 < steps.parts }
    requires marks_name { marks.name ≡ M.name }
    requires marks_parts { marks.parts ≡ M.parts }
    requires marks_some { 0 < marks.parts }
{
    let mut steps = Steps::<L>::begin(steps);
    let mut marks = Steps::<M>::begin(marks);
    run(alloc, words, files, script, sink, &mut steps, &mut marks)
}

const CASES: [Case<'static>; 33] = [
    // An empty file is one empty line.
    Case {
        words: &["text"],
        text: Some(b""),
        script: b"{\"brackets\":[0,0]}\n",
        wrote: b"{\"opened\":1,\"unread\":0}\n{\"brackets\":[]}\n",
        status: Status::Done,
    },
    // A closer takes the last opener of its kind, and the last line needs no LF.
    Case {
        words: &["text"],
        text: Some(b"([)]"),
        script: b"{\"brackets\":[0,0]}",
        wrote: b"{\"opened\":1,\"unread\":0}\n{\"brackets\":[[0,0,1,0,0,0],[0,1,2,1,0,6],[0,2,3,0,0,0],[0,3,4,0,0,6]]}\n",
        status: Status::Done,
    },
    // An edit gives an unexpected closer of a later line its opener.
    Case {
        words: &["text"],
        text: Some(b"\na ) b"),
        script: b"{\"brackets\":[0,1]}\n{\"edit\":[[0,0,0,0,\"(\"]]}\n{\"brackets\":[0,1]}\n",
        wrote: b"{\"opened\":2,\"unread\":0}\n{\"brackets\":[[1,2,3,0,0,6]]}\n{\"edited\":2}\n{\"brackets\":[[0,0,1,0,0,0],[1,2,3,0,0,0]]}\n",
        status: Status::Done,
    },
    // Openers at the nesting limit are text; both spans of a batch are places of the text before it.
    Case {
        words: &["text", "--nesting", "2"],
        text: Some(b"((()))"),
        script: b"{\"brackets\":[0,0]}\n{\"edit\":[[0,0,0,0,\"[\"],[0,6,0,6,\"]\"]]}\n{\"brackets\":[0,0]}\n",
        wrote: b"{\"opened\":1,\"unread\":0}\n{\"brackets\":[[0,0,1,0,0,0],[0,1,2,1,1,1],[0,3,4,1,1,1],[0,4,5,0,0,0],[0,5,6,0,0,6]]}\n{\"edited\":1}\n{\"brackets\":[[0,0,1,0,0,0],[0,1,2,1,0,1],[0,4,5,1,0,1],[0,5,6,1,0,6],[0,6,7,1,0,6],[0,7,8,0,0,0]]}\n",
        status: Status::Done,
    },
    // A refused batch changes nothing, not even by its first edits.
    Case {
        words: &["text"],
        text: Some(b"abc"),
        script: b"{\"edit\":[[0,0,0,1,\"x\"],[0,2,0,3,\"yy\"]]}\n{\"line\":0}\n{\"edit\":[[0,2,0,3,\"q\"],[0,0,0,1,\"q\"]]}\n{\"line\":0}\n{\"edit\":[[0,9,0,9,\"q\"]]}\n{\"turn\":262144}\n",
        wrote: b"{\"opened\":1,\"unread\":0}\n{\"edited\":1}\n{\"line\":\"xbyy\"}\n{\"refused\":\"order\"}\n{\"line\":\"xbyy\"}\n{\"refused\":\"range\"}\n{\"turned\":true}\n",
        status: Status::Done,
    },
    // CR LF, CR and LF end lines.
    Case {
        words: &["text"],
        text: Some(b"a\r\nb\rc\nd"),
        script: b"{\"line\":1}\n",
        wrote: b"{\"opened\":4,\"unread\":0}\n{\"line\":\"b\"}\n",
        status: Status::Done,
    },
    // Each refusal word by its cause.
    Case {
        words: &["text"],
        text: Some(b"a"),
        script: b"x\n\n[]\n{\"turn\":0}\n{\"level\":[0,-1]}\n{\"line\":1}\n{\"brackets\":[0,1]}\n{\"line\":0}\n",
        wrote: b"{\"opened\":1,\"unread\":0}\n{\"refused\":\"json\"}\n{\"refused\":\"json\"}\n{\"refused\":\"command\"}\n{\"refused\":\"command\"}\n{\"refused\":\"command\"}\n{\"refused\":\"line\"}\n{\"refused\":\"line\"}\n{\"line\":\"a\"}\n",
        status: Status::Done,
    },
    // Questions about a place: the bracket there, the pair around it, where to jump, and how many pairs are open.
    Case {
        words: &["text"],
        text: Some(b"()"),
        script: b"{\"match\":[0,1]}\n{\"around\":[0,1]}\n{\"jump\":[0,2]}\n{\"around\":[0,0]}\n{\"level\":[0,1]}\n{\"level\":[0,3]}\n{\"level\":[1,0]}\n{\"brackets\":[0,1]}\n",
        wrote: b"{\"opened\":1,\"unread\":0}\n{\"match\":[[0,1,2],[0,0,1]]}\n{\"around\":[[0,0,1],[0,1,2]]}\n{\"jump\":[0,0]}\n{\"around\":null}\n{\"level\":1}\n{\"refused\":\"place\"}\n{\"refused\":\"line\"}\n{\"refused\":\"line\"}\n",
        status: Status::Done,
    },
    // All of them over a function, and after an edit.
    Case {
        words: &["text"],
        text: Some(b"function f(a) {\n  if (a[0] > 1) {\n    log(a + 1);\n  }\n}\n"),
        script: b"{\"guides\":[0,5]}\n{\"pairs\":[3,3]}\n{\"match\":[2,8]}\n{\"around\":[2,0]}\n{\"level\":[2,9]}\n{\"jump\":[2,0]}\n{\"edit\":[[4,0,4,1,\"\"]]}\n{\"pairs\":[4,5]}\n{\"guides\":[4,5]}\n{\"jump\":[5,0]}\n",
        wrote: b"{\"opened\":6,\"unread\":0}\n{\"guides\":[[1,0,0],[2,0,0],[2,2,1],[3,0,0],[3,2,1],[4,0,0]]}\n{\"pairs\":[[[0,14,15],[4,0,1],0,0],[[1,16,17],[3,2,3],1,1]]}\n{\"match\":[[2,7,8],[2,13,14]]}\n{\"around\":[[1,16,17],[3,2,3]]}\n{\"level\":3}\n{\"jump\":[3,2]}\n{\"edited\":6}\n{\"pairs\":[[[0,14,15],null,0,0]]}\n{\"guides\":[]}\n{\"jump\":null}\n",
        status: Status::Done,
    },
    // A tab goes to the next multiple of four, and the smaller indentation counts; a place's line is tested first.
    Case {
        words: &["text"],
        text: Some(b"\t(\n  \t  a\n  \t )"),
        script: b"{\"guides\":[0,2]}\n{\"guides\":[2,2]}\n{\"guides\":[1,0]}\n{\"match\":[3,99]}\n{\"jump\":[1,99]}\n",
        wrote: b"{\"opened\":3,\"unread\":0}\n{\"guides\":[[1,4,0],[2,4,0]]}\n{\"guides\":[[2,4,0]]}\n{\"refused\":\"line\"}\n{\"refused\":\"line\"}\n{\"refused\":\"place\"}\n",
        status: Status::Done,
    },
    // A file that is no UTF-8, and one that isn't there.
    Case {
        words: &["text"],
        text: Some(b"\xff"),
        script: b"{\"line\":0}\n",
        wrote: b"",
        status: Status::TextFile,
    },
    Case {
        words: &["text"],
        text: None,
        script: b"{\"line\":0}\n",
        wrote: b"",
        status: Status::ReadFault,
    },
    // Words that are no command line.
    Case {
        words: &[],
        text: Some(b"a"),
        script: b"{\"line\":0}\n",
        wrote: b"",
        status: Status::Words,
    },
    Case {
        words: &["text", "more"],
        text: Some(b"a"),
        script: b"{\"line\":0}\n",
        wrote: b"",
        status: Status::Words,
    },
    Case {
        words: &["-text"],
        text: Some(b"a"),
        script: b"",
        wrote: b"",
        status: Status::Words,
    },
    Case {
        words: &[""],
        text: Some(b"a"),
        script: b"",
        wrote: b"",
        status: Status::Words,
    },
    Case {
        words: &["text", "--nesting", "301"],
        text: Some(b"a"),
        script: b"",
        wrote: b"",
        status: Status::Words,
    },
    Case {
        words: &["text", "--nesting", "0"],
        text: Some(b"a"),
        script: b"",
        wrote: b"",
        status: Status::Words,
    },
    Case {
        words: &["text", "--nesting", "2x"],
        text: Some(b"a"),
        script: b"",
        wrote: b"",
        status: Status::Words,
    },
    Case {
        words: &["text", "--tab", "4", "--tab", "4"],
        text: Some(b"a"),
        script: b"",
        wrote: b"",
        status: Status::Words,
    },
    Case {
        words: &["text", "--grammar="],
        text: Some(b"a"),
        script: b"",
        wrote: b"",
        status: Status::Words,
    },
    Case {
        words: &["text", "--colour", "4"],
        text: Some(b"a"),
        script: b"",
        wrote: b"",
        status: Status::Words,
    },
    Case {
        words: &["--nesting", "text"],
        text: Some(b"a"),
        script: b"",
        wrote: b"",
        status: Status::Words,
    },
    // Options before the name, a value behind `=`, and a name behind `--`.
    Case {
        words: &["--nesting", "0001", "--tab=8", "--", "text"],
        text: Some(b"(()"),
        script: b"{\"brackets\":[0,0]}\n",
        wrote: b"{\"opened\":1,\"unread\":0}\n{\"brackets\":[[0,0,1,0,0,0],[0,2,3,0,0,0]]}\n",
        status: Status::Done,
    },
    // A tab of one column.
    Case {
        words: &["text", "--tab", "1"],
        text: Some(b"\t(\n\ta\n\t)"),
        script: b"{\"guides\":[0,2]}\n",
        wrote: b"{\"opened\":3,\"unread\":0}\n{\"guides\":[[1,1,0],[2,1,0]]}\n",
        status: Status::Done,
    },
    // Without a grammar a line is one token without scopes, an empty one too.
    Case {
        words: &["text"],
        text: Some(b"a b\n"),
        script: b"{\"tokens\":0}\n{\"tokens\":1}\n{\"tokens\":2}\n",
        wrote: b"{\"opened\":2,\"unread\":0}\n{\"tokens\":[[0,3,[],0]]}\n{\"tokens\":[[0,0,[],0]]}\n{\"refused\":\"line\"}\n",
        status: Status::Done,
    },
    // A text that is made: five lines tell of it, and neither a text file nor the script is read.
    Case {
        words: &["--make", "1"],
        text: None,
        script: b"{\"line\":0}\n",
        wrote: b"{\"made\":[1,9,7,3]}\n{\"made\":[7,21,13,7]}\n{\"made\":[13,35,15,10]}\n{\"made\":[19,52,22,14]}\n{\"made\":[26,61,27,18]}\n",
        status: Status::Done,
    },
    // In a line that is too long there are no brackets.
    Case {
        words: &["--long=1", "--make=0000000006"],
        text: Some(b"\xff"),
        script: b"",
        wrote: b"{\"made\":[6,0,0,0]}\n{\"made\":[12,0,0,0]}\n{\"made\":[18,0,0,0]}\n{\"made\":[24,0,0,0]}\n{\"made\":[31,0,0,0]}\n",
        status: Status::Done,
    },
    // A grammar file that isn't there fails, whatever text is asked for.
    Case {
        words: &["--make", "1", "--grammar", "g"],
        text: None,
        script: b"",
        wrote: b"",
        status: Status::ReadFault,
    },
    // A text that is made has from 1 to 100,000 lines.
    Case {
        words: &["--make", "100001"],
        text: None,
        script: b"",
        wrote: b"",
        status: Status::Words,
    },
    // A file that is named beside it is named in vain, if its name isn't empty.
    Case {
        words: &["text", "--make", "1"],
        text: None,
        script: b"",
        wrote: b"{\"made\":[1,9,7,3]}\n{\"made\":[7,21,13,7]}\n{\"made\":[13,35,15,10]}\n{\"made\":[19,52,22,14]}\n{\"made\":[26,61,27,18]}\n",
        status: Status::Done,
    },
    Case {
        words: &["", "--make", "1"],
        text: Some(b"a"),
        script: b"",
        wrote: b"",
        status: Status::Words,
    },
    // Zeros in front of a number are read.
    Case {
        words: &["text", "--nesting", "0000000300"],
        text: Some(b"a"),
        script: b"",
        wrote: b"{\"opened\":1,\"unread\":0}\n",
        status: Status::Done,
    },
];

#[test]
fn sessions_have_the_worked_replies(rt: HostRuntime) -> Result<(), Fail> {
    for (n, case) in CASES.iter().enumerate() {
        let (status, sink) = run_case(rt.alloc(), case, &[], &[])?;
        assert_eq!(rt; status, case.status, "case {n}");
        assert_eq!(rt; sink.bytes(), case.wrote, "case {n}");
    }
    Ok(())
}

/// What is written where a read of the script or a write fails.
#[test]
fn faults_leave_whole_replies(rt: HostRuntime) -> Result<(), Fail> {
    let case = Case {
        words: &["text"],
        text: Some(b"abc"),
        script: b"{\"edit\":[[0,0,0,1,\"x\"],[0,2,0,3,\"yy\"]]}\n{\"line\":0}\n",
        wrote: b"",
        status: Status::Done,
    };
    let opened = b"{\"opened\":1,\"unread\":0}\n".as_slice();
    let edited = b"{\"opened\":1,\"unread\":0}\n{\"edited\":1}\n".as_slice();
    let all = b"{\"opened\":1,\"unread\":0}\n{\"edited\":1}\n{\"line\":\"xbyy\"}\n".as_slice();
    let writes = [
        (1, Status::WriteFault, b"".as_slice()),
        (2, Status::WriteFault, opened),
        (3, Status::WriteFault, edited),
        (4, Status::Done, all),
    ];
    for (failing, status, wrote) in writes {
        let (ended, sink) = run_case(rt.alloc(), &case, &[], &[failing])?;
        assert_eq!(rt; ended, status, "write {failing}");
        assert_eq!(rt; sink.bytes(), wrote, "write {failing}");
    }
    let reads = [
        (1, Status::ReadFault, opened),
        (2, Status::ReadFault, all),
        (3, Status::Done, all),
    ];
    for (failing, status, wrote) in reads {
        let (ended, sink) = run_case(rt.alloc(), &case, &[failing], &[])?;
        assert_eq!(rt; ended, status, "read {failing}");
        assert_eq!(rt; sink.bytes(), wrote, "read {failing}");
    }
    Ok(())
}

/// Bytes with a part so many times between their front and their back.
fn repeated(
    alloc: Global,
    front: &[u8],
    part: &[u8],
    times: u32,
    back: &[u8],
) -> Result<Vec<u8>, AllocError> {
    let mut bytes = Vec::from_slice(alloc, front)?;
    for _ in 0..times {
        bytes.extend_from_slice(part)?;
    }
    bytes.extend_from_slice(back)?;
    Ok(bytes)
}

/// Runs a script over a text, and compares what is written behind the open reply's line.
fn check_run(
    rt: &impl Abort,
    alloc: Global,
    text: &[u8],
    script: &[u8],
    lines: &str,
    wrote: &str,
) -> Result<(), AllocError> {
    let case = Case {
        words: &["text"],
        text: Some(text),
        script,
        wrote: b"",
        status: Status::Done,
    };
    let (status, sink) = run_case(alloc, &case, &[], &[])?;
    let expected = format!(in alloc; "{{\"opened\":{lines},\"unread\":0}}\n{wrote}")?;
    assert_eq!(rt; status, Status::Done, "{wrote}");
    assert_eq!(rt; sink.bytes(), expected.as_bytes(), "{wrote}");
    Ok(())
}

/// Runs a script over a file that isn't accepted: nothing is written.
fn check_refused(rt: &impl Abort, alloc: Global, text: &[u8]) -> Result<(), AllocError> {
    let case = Case {
        words: &["text"],
        text: Some(text),
        script: b"{\"line\":0}\n",
        wrote: b"",
        status: Status::TextFile,
    };
    let (status, sink) = run_case(alloc, &case, &[], &[])?;
    assert_eq!(rt; status, Status::TextFile);
    assert_eq!(rt; sink.bytes(), b"".as_slice());
    Ok(())
}

#[test]
fn long_lines_have_no_brackets(rt: HostRuntime) -> Result<(), Fail> {
    let line = repeated(rt.alloc(), b"(", b"a", 19_998, b"\n)")?;
    let text = repeated(rt.alloc(), &line, b"a", 19_999, b"")?;
    let wrote = "{\"brackets\":[[0,0,1,0,0,6]]}\n";
    check_run(
        &rt,
        rt.alloc(),
        &text,
        b"{\"brackets\":[0,1]}\n",
        "2",
        wrote,
    )?;
    Ok(())
}

#[test]
fn long_script_lines_are_refused(rt: HostRuntime) -> Result<(), Fail> {
    let script = repeated(rt.alloc(), b"", b" ", 1_048_577, b"\n{\"line\":0}\n")?;
    let wrote = "{\"refused\":\"long\"}\n{\"line\":\"a\"}\n";
    check_run(&rt, rt.alloc(), b"a", &script, "1", wrote)?;
    Ok(())
}

#[test]
fn texts_have_at_most_so_many_lines(rt: HostRuntime) -> Result<(), Fail> {
    let edit = b"{\"edit\":[[0,0,0,0,\"".as_slice();
    let more = repeated(rt.alloc(), edit, b"\\n", 262_144, b"\"]]}\n")?;
    check_run(
        &rt,
        rt.alloc(),
        b"",
        &more,
        "1",
        "{\"refused\":\"lines\"}\n",
    )?;
    let most = repeated(rt.alloc(), edit, b"\\n", 262_143, b"\"]]}\n")?;
    check_run(&rt, rt.alloc(), b"", &most, "1", "{\"edited\":262144}\n")?;
    let largest = repeated(rt.alloc(), b"", b"\n", 262_143, b"")?;
    check_run(&rt, rt.alloc(), &largest, b"", "262144", "")?;
    let larger = repeated(rt.alloc(), b"", b"\n", 262_144, b"")?;
    check_refused(&rt, rt.alloc(), &larger)?;
    Ok(())
}

#[test]
fn texts_have_at_most_so_many_characters(rt: HostRuntime) -> Result<(), Fail> {
    let most = repeated(rt.alloc(), b"", b"a", 4_194_304, b"")?;
    let script = b"{\"edit\":[[0,0,0,0,\"a\"]]}\n".as_slice();
    check_run(
        &rt,
        rt.alloc(),
        &most,
        script,
        "1",
        "{\"refused\":\"chars\"}\n",
    )?;
    let more = repeated(rt.alloc(), b"", b"a", 4_194_305, b"")?;
    check_refused(&rt, rt.alloc(), &more)?;
    Ok(())
}

/// Its text would fit: a U+FEFF that falls away, and 2^22 characters of four bytes, less two, and more bytes.
#[test]
fn files_have_at_most_so_many_bytes(rt: HostRuntime) -> Result<(), Fail> {
    let most = repeated(
        rt.alloc(),
        b"\xef\xbb\xbf",
        b"\xf0\x9f\x98\x80",
        4_194_303,
        b"a",
    )?;
    check_run(&rt, rt.alloc(), &most, b"", "1", "")?;
    let more = repeated(
        rt.alloc(),
        b"\xef\xbb\xbf",
        b"\xf0\x9f\x98\x80",
        4_194_303,
        b"\xc3\xa9",
    )?;
    check_refused(&rt, rt.alloc(), &more)?;
    Ok(())
}

/// A script of spaces that never ends, and that tells nothing.
#[derive(Drop)]
struct Spaces;

impl Source for Spaces {
    ghost left = { λ _. None };

    ghost faults = { λ _. 0 };

    fn read(&mut self, into: &mut [u8]) -> Result<usize, Failed> {
        into.fill(b' ');
        Ok(into.len())
    }
}

#[test]
fn endless_script_is_full(rt: HostRuntime) -> Result<(), Fail> {
    let mut sink = MemSink::new(rt.alloc(), 1 << 20, 65_536, &[])?;
    let mut files = files_with(rt.alloc(), Some(b"a"))?;
    let status = run_over(rt.alloc(), &["text"], &mut files, &mut Spaces, &mut sink)?;
    assert_eq!(rt; status, Status::ScriptFull);
    assert_eq!(rt; sink.bytes(), b"{\"opened\":1,\"unread\":0}\n".as_slice());
    Ok(())
}

/// What files of the system hold no clause can say, and so not that a failed read isn't taken for the end.
#[test]
fn a_file_that_is_not_there_fails(rt: HostRuntime) {
    let mut files = FileStore::new(&rt);
    let read = files.read_at("no file has this name", 0, &mut [0; 1]);
    assert_eq!(rt; read, Err(Failed));
}
