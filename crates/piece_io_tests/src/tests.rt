//! Shows how objects in memory fail, how files are read whole or refused, and how a stream is cut into lines.

ghost use Rattle.std.specs.Prelude.{◌≡◌, ◌<◌, length};

use piece_io::{
    Cut, Failed, FileEnd, Files, LineCutter, MemFiles, MemSink, MemSource, Source, read_file,
    write_whole,
};
use std::alloc::{AllocError, Global};
use std::test::Fail;

// Reads to the end, and shows the pieces: `|` behind each, and `!` for a read that failed.
fn pieces_of<S: Source>(
    source: &mut S,
    into: &mut [u8],
    alloc: Global,
) -> Result<Vec<u8>, AllocError>
    requires { 0 < length into.old }
{
    let mut shown = Vec::new(alloc);
    for _ in 0..100 {
        match source.read(into) {
            Ok(0) => break,
            Ok(n) => {
                shown.extend_from_slice(&into[..n])?;
                shown.push(b'|')?;
            }
            Err(Failed) => shown.push(b'!')?,
        }
    }
    Ok(shown)
}

#[test]
fn a_source_gives_pieces_and_fails_at_listed_calls(rt: HostRuntime) -> Result<(), Fail> {
    let mut byte = [0; 1];
    let mut room = [0; 65_536];
    // the last read, which finds the end, is a call too
    for (piece, failing, want) in [
        (1, [].as_slice(), b"a|b|c|d|e|".as_slice()),
        (1, [1].as_slice(), b"!a|b|c|d|e|".as_slice()),
        (1, [2].as_slice(), b"a|!b|c|d|e|".as_slice()),
        (1, [6].as_slice(), b"a|b|c|d|e|!".as_slice()),
        (2, [].as_slice(), b"ab|cd|e|".as_slice()),
        (2, [1, 2, 5].as_slice(), b"!!ab|cd|!e|".as_slice()),
        (65_536, [].as_slice(), b"abcde|".as_slice()),
        (65_536, [2].as_slice(), b"abcde|!".as_slice()),
    ] {
        let mut source = MemSource::new(rt.alloc(), b"abcde", piece, failing)?;
        let shown = pieces_of(&mut source, &mut room, rt.alloc())?;
        assert_eq!(rt; shown.as_slice(), want, "pieces of {piece}");
    }
    let mut source = MemSource::new(rt.alloc(), b"abc", 65_536, &[])?;
    let shown = pieces_of(&mut source, &mut byte, rt.alloc())?;
    assert_eq!(rt; shown.as_slice(), b"a|b|c|".as_slice(), "into one byte");
    let mut source = MemSource::new(rt.alloc(), b"", 1, &[])?;
    let shown = pieces_of(&mut source, &mut byte, rt.alloc())?;
    assert_eq!(rt; shown.as_slice(), b"".as_slice(), "of nothing");
    Ok(())
}

#[test]
fn a_sink_takes_pieces_and_fails_at_listed_calls_and_where_it_is_full(
    rt: HostRuntime,
) -> Result<(), Fail> {
    for (room, piece, failing, want, bytes) in [
        (9, 1, [].as_slice(), Ok(()), b"abcde".as_slice()),
        (9, 2, [].as_slice(), Ok(()), b"abcde".as_slice()),
        (9, 65_536, [].as_slice(), Ok(()), b"abcde".as_slice()),
        (5, 65_536, [].as_slice(), Ok(()), b"abcde".as_slice()),
        (9, 1, [1].as_slice(), Err(Failed), b"".as_slice()),
        (9, 1, [2].as_slice(), Err(Failed), b"a".as_slice()),
        (9, 1, [5].as_slice(), Err(Failed), b"abcd".as_slice()),
        (9, 1, [6].as_slice(), Ok(()), b"abcde".as_slice()),
        (9, 2, [3].as_slice(), Err(Failed), b"abcd".as_slice()),
        (9, 65_536, [1].as_slice(), Err(Failed), b"".as_slice()),
        (4, 1, [].as_slice(), Err(Failed), b"abcd".as_slice()),
        (3, 2, [].as_slice(), Err(Failed), b"abc".as_slice()),
        (0, 65_536, [].as_slice(), Err(Failed), b"".as_slice()),
    ] {
        let mut sink = MemSink::new(rt.alloc(), room, piece, failing)?;
        let answer = write_whole(&mut sink, b"abcde");
        assert_eq!(rt; answer, want, "room {room}, pieces of {piece}");
        assert_eq!(rt; sink.bytes(), bytes, "room {room}, pieces of {piece}");
    }
    Ok(())
}

#[test]
fn a_sink_goes_on_after_a_failed_write(rt: HostRuntime) -> Result<(), Fail> {
    let mut sink = MemSink::new(rt.alloc(), 9, 2, &[2])?;
    assert_eq!(rt; write_whole(&mut sink, b"abc"), Err(Failed));
    assert_eq!(rt; write_whole(&mut sink, b"def"), Ok(()));
    assert_eq!(rt; write_whole(&mut sink, b""), Ok(()));
    assert_eq!(rt; sink.bytes(), b"abdef".as_slice());
    Ok(())
}

#[test]
fn files_are_read_from_any_place(rt: HostRuntime) -> Result<(), Fail> {
    let mut files = MemFiles::new(rt.alloc(), &[2, 6])?;
    files.put("a", b"other")?;
    files.put("b", b"hello")?;
    files.put("a", b"")?;
    let mut into = [0; 65_536];
    for (name, from, room, want) in [
        ("b", 0, 1, Ok(b"h".as_slice())),
        ("b", 1, 2, Err(Failed)),
        ("b", 1, 2, Ok(b"el".as_slice())),
        ("b", 3, 65_536, Ok(b"lo".as_slice())),
        ("c", 0, 2, Err(Failed)),
        ("b", 0, 2, Err(Failed)),
        ("b", 5, 2, Ok(b"".as_slice())),
        ("b", 4_294_967_296, 2, Ok(b"".as_slice())),
        ("a", 0, 2, Ok(b"".as_slice())),
    ] {
        let answer = files.read_at(name, from, &mut into[..room]);
        match (answer, want) {
            (Ok(n), Ok(bytes)) => assert_eq!(rt; into.get(..n), Some(bytes), "{name} from {from}"),
            (answer, want) => assert_eq!(rt; answer.is_ok(), want.is_ok(), "{name} from {from}"),
        }
    }
    Ok(())
}

// What reading a whole file answers: its length, or why it has none.
#[derive(Clone, Copy, Debug, PartialEq, Eq)]
enum Answer {
    Read(usize),
    Failed,
    TooLong(u64),
    Memory,
}

#[test]
fn a_file_is_read_whole_or_refused(rt: HostRuntime) -> Result<(), Fail> {
    // a file of 65,537 bytes takes three calls, the last of which finds its end
    for (size, most, failing, want) in [
        (0, 0, [].as_slice(), Answer::Read(0)),
        (10, 10, [].as_slice(), Answer::Read(10)),
        (11, 10, [].as_slice(), Answer::TooLong(11)),
        (65_536, 65_536, [].as_slice(), Answer::Read(65_536)),
        (65_537, 65_537, [].as_slice(), Answer::Read(65_537)),
        (65_537, 65_536, [].as_slice(), Answer::TooLong(65_537)),
        (200_000, 65_536, [].as_slice(), Answer::TooLong(131_072)),
        (65_537, 16_777_216, [1].as_slice(), Answer::Failed),
        (65_537, 16_777_216, [2].as_slice(), Answer::Failed),
        (65_537, 16_777_216, [3].as_slice(), Answer::Failed),
        (65_537, 16_777_216, [4].as_slice(), Answer::Read(65_537)),
    ] {
        let bytes = vec![in rt.alloc(); b'x'; size]?;
        let mut files = MemFiles::new(rt.alloc(), failing)?;
        files.put("f", &bytes)?;
        let answer = match read_file(rt.alloc(), &mut files, "f", most) {
            Ok(read) => {
                assert_eq!(rt; read.as_slice(), bytes.as_slice(), "{size} bytes");
                Answer::Read(read.as_slice().len())
            }
            Err(FileEnd::Failed) => Answer::Failed,
            Err(FileEnd::TooLong { taken }) => Answer::TooLong(taken),
            Err(FileEnd::Memory(_)) => Answer::Memory,
        };
        assert_eq!(rt; answer, want, "{size} bytes, at most {most}");
    }
    let mut files = MemFiles::new(rt.alloc(), &[])?;
    assert!(rt;
        matches!(
            read_file(rt.alloc(), &mut files, "f", 9),
            Err(FileEnd::Failed)
        )
    );
    Ok(())
}

// Shows the lines that are there: `|` behind each, `#` for one that is too long, and `L` for the bytes of one
// that is as long as may be.
fn show_lines(cutter: &mut LineCutter, shown: &mut Vec<u8>) -> Result<(), AllocError>
    ensures { cutter.new.ended ≡ cutter.old.ended }
{
    for _ in 0..100 {
        match cutter.next_line()? {
            Some(Cut::Line(line)) if line.as_slice().len() == 1_048_576 => shown.push(b'L')?,
            Some(Cut::Line(line)) => shown.extend_from_slice(line.as_slice())?,
            Some(Cut::TooLong) => shown.push(b'#')?,
            None => break,
        }
        shown.push(b'|')?;
    }
    Ok(())
}

// Feeds the bytes in pieces of a size, and shows the lines, with `.` behind those that are there before the
// end. They are taken behind each piece, or all behind the last one.
fn cut_into_lines(
    alloc: Global,
    bytes: &[u8],
    size: usize,
    at_once: bool,
) -> Result<Vec<u8>, AllocError>
    requires { 0 < size }
{
    let mut shown = Vec::new(alloc);
    let mut cutter = LineCutter::new(alloc)?;
    for piece in bytes.chunks(size) {
        cutter.feed(piece)?;
        if at_once {
            show_lines(&mut cutter, &mut shown)?;
        }
    }
    show_lines(&mut cutter, &mut shown)?;
    shown.push(b'.')?;
    cutter.end();
    show_lines(&mut cutter, &mut shown)?;
    Ok(shown)
}

#[test]
fn lines_end_at_each_lf_however_the_bytes_come(rt: HostRuntime) -> Result<(), Fail> {
    for (bytes, want) in [
        (b"".as_slice(), b".".as_slice()),
        (b"\n".as_slice(), b"|.".as_slice()),
        (b"a".as_slice(), b".a|".as_slice()),
        (b"a\n".as_slice(), b"a|.".as_slice()),
        (b"a\r\nb\rc\n".as_slice(), b"a\r|b\rc|.".as_slice()),
        (b"ab\n\ncd\n\n".as_slice(), b"ab||cd||.".as_slice()),
        (b"ab\ncde".as_slice(), b"ab|.cde|".as_slice()),
        (b"\n\r".as_slice(), b"|.\r|".as_slice()),
    ] {
        for size in [1, 2, 3, 65_536] {
            for at_once in [false, true] {
                let shown = cut_into_lines(rt.alloc(), bytes, size, at_once)?;
                assert_eq!(rt;
                    shown.as_slice(),
                    want,
                    "in pieces of {size}, at once: {at_once}"
                );
            }
        }
    }
    Ok(())
}

#[test]
fn a_line_of_more_than_a_mebibyte_is_too_long(rt: HostRuntime) -> Result<(), Fail> {
    for (size, rest, want) in [
        (1_048_576, b"\nb\n".as_slice(), b"L|b|.".as_slice()),
        (1_048_577, b"\nb\n".as_slice(), b"#|b|.".as_slice()),
        (1_048_576, b"".as_slice(), b".L|".as_slice()),
        (1_048_577, b"".as_slice(), b".#|".as_slice()),
        (3_000_000, b"\n\nb".as_slice(), b"#||.b|".as_slice()),
        (3_000_000, b"".as_slice(), b".#|".as_slice()),
    ] {
        let mut bytes = vec![in rt.alloc(); b' '; size]?;
        bytes.extend_from_slice(rest)?;
        for piece in [65_536, 1_048_576, 1_048_577, 9_000_000] {
            for at_once in [false, true] {
                let shown = cut_into_lines(rt.alloc(), &bytes, piece, at_once)?;
                assert_eq!(rt;
                    shown.as_slice(),
                    want,
                    "{size} in pieces of {piece}, at once: {at_once}"
                );
            }
        }
    }
    Ok(())
}
