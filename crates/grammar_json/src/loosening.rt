//! Puts spaces in place of comments and trailing commas in JSON.

ghost use Rattle.std.specs.Prelude.{◌≡◌, IfOk};
ghost use Rattle.grammar_defs.specs.Loosening.{without_mark, next_is, after, in_comment, blank, without_comment, without_comments, is_blank, closes_next, behind, is_outside, without_comma, without_commas, loosened};
ghost use Rattle.grammar_defs.specs.declared.stand.Stand.TheVariants.{Outside};

use grammar_defs::Stand;
use std::alloc::{AllocError, Global};
use text_pos::Bytes;

/// JSON with comments and trailing commas, made into JSON of the same length but for a leading U+FEFF. What counts as
/// a comment and as a trailing comma is this project's own.
pub fn loosen(alloc: Global, bytes: &[u8]) -> Result<Bytes, AllocError>
    ensures { IfOk result (λ b. b ≡ loosened bytes.now) }
{
    let plain = without_comments(alloc, without_mark(bytes))?;
    without_commas(alloc, plain.as_slice())
}

/// Without a leading U+FEFF.
fn without_mark(bytes: &[u8]) -> &[u8]
    ensures { result.now ≡ without_mark bytes.now }
{
    match bytes {
        [0xEF, 0xBB, 0xBF, rest @ ..] => rest,
        _ => bytes,
    }
}

/// With spaces in place of comments.
fn without_comments(alloc: Global, bytes: &[u8]) -> Result<Bytes, AllocError>
    ensures { IfOk result (λ b. b ≡ without_comments Outside bytes.now) }
{
    let mut made = Bytes::new(alloc);
    let mut stand = Stand::Outside;
    for at in 0..bytes.len() {
        let (_, rest) = bytes.split_at(at + 1);
        made.push(without_comment(stand, bytes[at], rest))?;
        stand = after(stand, bytes[at], rest);
    }
    Ok(made)
}

/// The byte, or what stands in its place in a comment.
fn without_comment(stand: Stand, byte: u8, rest: &[u8]) -> u8
    ensures { result ≡ without_comment stand byte rest.now }
{
    if in_comment(stand, byte, rest) {
        blank(byte)
    } else {
        byte
    }
}

fn next_is(byte: u8, rest: &[u8]) -> bool
    ensures { result ≡ next_is byte rest.now }
{
    match rest {
        [] => false,
        [next, ..] => *next == byte,
    }
}

/// Whether the byte belongs to a comment.
fn in_comment(stand: Stand, byte: u8, rest: &[u8]) -> bool
    ensures { result ≡ in_comment stand byte rest.now }
{
    match stand {
        Stand::Outside => byte == b'/' && (next_is(b'/', rest) || next_is(b'*', rest)),
        Stand::Text | Stand::Escaped => false,
        Stand::LineComment | Stand::Opens | Stand::BlockComment | Stand::Closes => true,
    }
}

/// Where the next byte stands.
fn after(stand: Stand, byte: u8, rest: &[u8]) -> Stand
    ensures { result ≡ after stand byte rest.now }
{
    match stand {
        Stand::Outside => {
            if byte == b'"' {
                Stand::Text
            } else if byte == b'/' && next_is(b'/', rest) {
                Stand::LineComment
            } else if byte == b'/' && next_is(b'*', rest) {
                Stand::Opens
            } else {
                Stand::Outside
            }
        }
        Stand::Text | Stand::Escaped => behind(stand, byte),
        Stand::LineComment => {
            if byte == b'\n' {
                Stand::Outside
            } else {
                Stand::LineComment
            }
        }
        Stand::Opens => Stand::BlockComment,
        Stand::BlockComment => {
            if byte == b'*' && next_is(b'/', rest) {
                Stand::Closes
            } else {
                Stand::BlockComment
            }
        }
        Stand::Closes => Stand::Outside,
    }
}

/// A space in place of a byte of a comment. An LF stays.
fn blank(byte: u8) -> u8
    ensures { result ≡ blank byte }
{
    if byte == b'\n' { b'\n' } else { b' ' }
}

/// With spaces in place of commas before `]` and `}`.
fn without_commas(alloc: Global, bytes: &[u8]) -> Result<Bytes, AllocError>
    ensures { IfOk result (λ b. b ≡ without_commas Outside bytes.now) }
{
    let mut made = Bytes::new(alloc);
    let mut stand = Stand::Outside;
    for at in 0..bytes.len() {
        let (_, rest) = bytes.split_at(at + 1);
        made.push(without_comma(stand, bytes[at], rest))?;
        stand = behind(stand, bytes[at]);
    }
    Ok(made)
}

/// The byte, or a space in place of a trailing comma.
fn without_comma(stand: Stand, byte: u8, rest: &[u8]) -> u8
    ensures { result ≡ without_comma stand byte rest.now }
{
    if is_outside(stand) && byte == b',' && closes_next(rest) {
        b' '
    } else {
        byte
    }
}

fn is_outside(stand: Stand) -> bool
    ensures { result ≡ is_outside stand }
{
    match stand {
        Stand::Text | Stand::Escaped => false,
        Stand::Outside | Stand::LineComment | Stand::Opens | Stand::BlockComment | Stand::Closes =>
            true,
    }
}

/// Where the next byte stands, where there are no comments.
fn behind(stand: Stand, byte: u8) -> Stand
    ensures { result ≡ behind stand byte }
{
    match stand {
        Stand::Outside => {
            if byte == b'"' {
                Stand::Text
            } else {
                Stand::Outside
            }
        }
        Stand::Text => {
            if byte == b'\\' {
                Stand::Escaped
            } else if byte == b'"' {
                Stand::Outside
            } else {
                Stand::Text
            }
        }
        Stand::Escaped => Stand::Text,
        Stand::LineComment | Stand::Opens | Stand::BlockComment | Stand::Closes => Stand::Outside,
    }
}

/// Whether the first byte that is no white space is `]` or `}`.
fn closes_next(rest: &[u8]) -> bool
    ensures { result ≡ closes_next rest.now }
{
    for byte in rest {
        if !is_blank(*byte) {
            return *byte == b']' || *byte == b'}';
        }
    }
    false
}

fn is_blank(byte: u8) -> bool
    ensures { result ≡ is_blank byte }
{
    byte == b' ' || byte == b'\t' || byte == b'\n' || byte == b'\r'
}
