//! Where a parse stands, what is around a list, and where marks start and end.

ghost use Rattle.std.specs.Prelude.{◌≡◌, ◌<◌, ◌||◌, ◌==◌, IfSome, None, false};
ghost use Rattle.reuse_parser.specs.Parsing.{start_of, end_of, next_start, size_of, front_has, IsFront, IsWithin};

use pairing_defs::{Mark, Role};
use text_pos::{Kinds, Length};

/// Where a parse stands: a place of the text, and the marks that start there or behind it.
#[derive(Clone, Copy)]
pub(crate) struct Place<'a> {
    pub(crate) at: Length,
    pub(crate) marks: &'a [Mark],
}

/// What is around a list: the kinds of the pairs that are entered and how many they are, how many there may be, and
/// where the text ends.
#[derive(Clone, Copy)]
pub(crate) struct Around {
    pub(crate) above: Kinds,
    pub(crate) level: u32,
    pub(crate) limit: u32,
    pub(crate) end: Length,
}

/// A closer, and the marks behind it.
#[derive(Clone, Copy)]
pub(crate) struct Closing<'a> {
    pub(crate) mark: Mark,
    pub(crate) rest: &'a [Mark],
}

impl Around {
    /// What is around the inside of a pair of this kind.
    pub(crate) fn within(self, kind: u32) -> Around
        requires kind { kind < 64 }
        requires room { self.level < self.limit }
        ensures { IsWithin self kind result }
    {
        let kinds = self.above.with(Kinds::one(kind));
        Around {
            above: kinds,
            level: self.level + 1,
            limit: self.limit,
            end: self.end,
        }
    }
}

/// Where a mark starts, as a length from the text's start.
pub(crate) fn start_of(mark: Mark) -> Length
    ensures { result ≡ start_of mark }
{
    Length {
        lines: mark.at.line,
        cols: mark.at.col,
    }
}

/// Where a mark ends.
pub(crate) fn end_of(mark: Mark) -> Length
    ensures { result ≡ end_of mark }
{
    Length {
        lines: mark.at.line,
        cols: mark.to,
    }
}

/// How long a mark is.
pub(crate) fn size_of(mark: Mark) -> Length
    requires { mark.at.col < mark.to }
    ensures { result ≡ size_of mark }
{
    Length {
        lines: 0,
        cols: mark.to - mark.at.col,
    }
}

/// Where the next mark starts, or else where the text ends.
pub(crate) fn next_start(end: Length, marks: &[Mark]) -> Length
    ensures { result ≡ next_start end marks.now }
{
    match marks.split_first() {
        Some((mark, _)) => start_of(*mark),
        None => end,
    }
}

/// The mark at the front, where it is a closer of this kind.
pub(crate) fn closer_for(marks: &[Mark], kind: u32) -> Option<Closing<'_>>
    ensures some { IfSome result (λ c. IsFront kind marks.now c.mark c.rest.now) }
    ensures none { result ≡ None → front_has marks.now kind ≡ false }
{
    let (mark, rest) = marks.split_first()?;
    let Role::Closer(kinds) = mark.role else {
        return None;
    };
    if kinds.has(kind) {
        Some(Closing { mark: *mark, rest })
    } else {
        None
    }
}
