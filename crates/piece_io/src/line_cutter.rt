//! Cuts a stream of bytes into lines at each LF, in whatever pieces it comes.

ghost use Rattle.std.specs.Prelude.{◌≡◌, ℕ, ◌+◌, ◌<◌, ◌≤◌, ◌↔◌, IsTrue, List, [], ◌∷◌, ◌++◌, length, take, drop, false, true, Some, None, MatchOption, IfOk, OnOk, OnErr, if◌then◌else◌};
ghost use Rattle.text_defs.specs.Text.{lines_of, most_line_bytes};
ghost use Rattle.piece_io.specs.Cuts.{Cutting, cut_of, cuts_of, Feeds, next_cut};
ghost use Rattle.piece_io.specs.CutLaws.{HasCut};
ghost use Rattle.piece_io.specs.CutRuns.{EachLineOnceInOrder};
ghost use Rattle.piece_io.specs.Pending.{IsOneLine, EndsLine, pending};

use memchr::memchr;
use std::alloc::{AllocError, Global};
use std::marker::Model;
use text_defs::MOST_LINE_BYTES;
use text_pos::Bytes;

/// What is handed out for a line: its bytes without the LF, or that it has more bytes than a line may have.
#[derive(Debug, Drop)]
pub enum Cut {
    Line(Bytes),
    TooLong,
}

/// Cuts a stream of bytes into lines at each LF, in whatever pieces the stream comes. Once the lines before it
/// are handed out, what has come of a line that is too long is let go at the next feed, so that a stream without
/// an LF takes no more room than a line and a piece.
#[derive(Drop)]
pub struct LineCutter {
    alloc: Global,
    bytes: Vec<u8>,
    // the bytes from here on are left
    start: usize,
    // so many bytes from `start` on are known to have no LF
    seen: usize,
    // whether the first line was too long already, so that its front was let go
    over: bool,
    ended: bool,
}

impl Model for LineCutter {
    ghost use Rattle.std.specs.Prelude.{drop};
    ghost use Rattle.piece_io.specs.Cuts.{Cutting};
    ghost use Rattle.piece_io.specs.Pending.{pending, IsCutAt};

    ghost Value = { Cutting };

    ghost view = { λ c. record { cuts = pending c.over (drop c.start c.bytes.items); ended = c.ended } };

    ghost invariant = { λ c. IsCutAt c.bytes.items c.start c.seen };
}

impl LineCutter {
    /// A cutter that was fed nothing.
    pub fn new(alloc: Global) -> Result<LineCutter, AllocError>
        ensures cuts { IfOk result (λ c. c.cuts ≡ cuts_of []) }
        ensures ended { IfOk result (λ c. c.ended ≡ false) }
    {
        Ok(LineCutter {
            alloc,
            bytes: Vec::new(alloc),
            start: 0,
            seen: 0,
            over: false,
            ended: false,
        })
    }

    /// The piece follows what was fed before.
    pub fn feed(&mut self, piece: &[u8]) -> Result<(), AllocError>
        requires { self.old.ended ≡ false }
        ensures ok { OnOk result ((bytes : List ℕ) → self.old.cuts ≡ cuts_of bytes → self.new.cuts ≡ cuts_of (bytes ++ piece.now)) }
        ensures stream { OnOk result (Feeds self.old piece.now self.new) }
        ensures ended { self.new.ended ≡ false }
        ensures unfinished { OnOk result (HasCut self.new.cuts) }
        ensures err { OnErr result (self.new ≡ self.old) }
    {
        cut_front(&mut self.bytes, self.start);
        self.start = 0;
        if is_too_long(&self.bytes, self.seen) {
            self.bytes.clear();
            self.seen = 0;
            self.over = true;
        }
        let kept = if self.bytes.is_empty() {
            kept_of(self.over, piece)
        } else {
            piece
        };
        self.bytes.extend_from_slice(kept)
    }

    /// Nothing more comes.
    pub fn end(&mut self)
        ensures cuts { self.new.cuts ≡ self.old.cuts }
        ensures ended { self.new.ended ≡ true }
    {
        self.ended = true;
    }

    /// The next line. An unfinished one is handed out only once nothing more comes, and if it has a byte.
    pub fn next_line(&mut self) -> Result<Option<Cut>, AllocError>
        ensures line { IfOk result (λ r. MatchOption r ((next_cut self.old ≡ None) × (self.new ≡ self.old))
            (λ cut. next_cut self.old ≡ Some (cut, self.new))) }
        ensures ended { self.new.ended ≡ self.old.ended }
        ensures unfinished { HasCut self.new.cuts }
        ensures err { OnErr result (self.new ≡ self.old) }
    {
        let left = &self.bytes[self.start..];
        match line_end(left, self.seen) {
            Some(at) => {
                let cut = make_cut(self.alloc, self.over, &left[..at])?;
                self.start += at + 1;
                self.seen = 0;
                self.over = false;
                Ok(Some(cut))
            }
            None if self.ended && (self.over || !left.is_empty()) => {
                let cut = make_cut(self.alloc, self.over, left)?;
                self.start = self.bytes.len();
                self.seen = 0;
                self.over = false;
                Ok(Some(cut))
            }
            None => {
                self.seen = left.len();
                Ok(None)
            }
        }
    }
}

/// However a stream comes in pieces, and whenever lines are taken, the lines that are handed out are those of
/// all its bytes, once each and in order.
pub fn each_line_comes_once_in_order()
    ensures { EachLineOnceInOrder }
{}

/// The bytes behind the first n.
fn cut_front(bytes: &mut Vec<u8>, n: usize)
    requires { n ≤ length bytes.old.items }
    ensures { bytes.new.items ≡ drop n bytes.old.items }
{
    let left = bytes.len() - n;
    bytes.copy_within(n.., 0);
    bytes.truncate(left);
}

/// Where the first line ends. The first `seen` bytes are known to have no LF.
fn line_end(bytes: &[u8], seen: usize) -> Option<usize>
    requires within { seen ≤ length bytes.now }
    requires no_lf { IsOneLine (take seen bytes.now) }
    ensures { MatchOption result (IsOneLine bytes.now) (EndsLine bytes.now) }
{
    let at = memchr(b'\n', &bytes[seen..])?;
    Some(seen + at)
}

/// Whether the bytes are the front of a line that is too long. The first `seen` bytes are known to have no LF.
fn is_too_long(bytes: &[u8], seen: usize) -> bool
    requires within { seen ≤ length bytes.now }
    requires no_lf { IsOneLine (take seen bytes.now) }
    ensures { IsTrue result ↔ ((most_line_bytes < length bytes.now) × IsOneLine bytes.now) }
{
    bytes.len() > MOST_LINE_BYTES && line_end(bytes, seen).is_none()
}

/// What is kept of a piece that comes first: of a line that is over the limit already, only its LF.
fn kept_of(over: bool, piece: &[u8]) -> &[u8]
    ensures { pending over result.now ≡ pending over piece.now }
{
    if over { from_lf(piece) } else { piece }
}

/// The bytes from the first LF on.
fn from_lf(bytes: &[u8]) -> &[u8]
    ensures { lines_of result.now ≡ [] ∷ drop 1 (lines_of bytes.now) }
{
    match line_end(bytes, 0) {
        Some(at) => &bytes[at..],
        None => &[],
    }
}

/// What is handed out for a line, whose front is missing where it was over the limit already.
fn make_cut(alloc: Global, over: bool, line: &[u8]) -> Result<Cut, AllocError>
    ensures { IfOk result (λ r. r ≡ (if over then Cut.TooLong else cut_of line.now)) }
{
    if over || line.len() > MOST_LINE_BYTES {
        return Ok(Cut::TooLong);
    }
    Ok(Cut::Line(Bytes::of(alloc, line)?))
}
