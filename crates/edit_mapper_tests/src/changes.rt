//! Changes for tests, made of pieces or of pseudorandom numbers.

ghost use Rattle.std.specs.Prelude.{◌≡◌, ◌<◌, IfSome, true};
ghost use Rattle.text_pos.specs.Lengths.{plus};
ghost use Rattle.tree_defs.specs.Ends.{fits};
ghost use Rattle.change_defs.specs.Changes.{is_less, end_joint, placed_at, placed_fits};

use change_defs::Joint;
use edit_mapper::{Change, Spans};
use std::alloc::{AllocError, Global};
use text_pos::Length;

/// Numbers one after the other, each made of the one before.
#[derive(Drop)]
pub(crate) struct Numbers {
    state: u64,
}

impl Numbers {
    pub(crate) fn new(seed: u64) -> Numbers {
        Numbers { state: seed }
    }

    /// The next number below a bound.
    fn below(&mut self, bound: u32) -> u32
        requires { 0 < bound }
        ensures { result < bound }
    {
        self.state = self
            .state
            .wrapping_mul(6_364_136_223_846_793_005)
            .wrapping_add(1_442_695_040_888_963_407);
        let high = (self.state >> 33) as u32;
        high % bound
    }

    /// A small length, and a very long one at times.
    fn length(&mut self) -> Length {
        let lines = self.below(6);
        let cols = if self.below(100) == 0 {
            4_294_967_290
        } else {
            0
        };
        Length {
            lines: if lines < 3 { lines } else { 0 },
            cols: cols + self.below(5),
        }
    }
}

/// A sum of lengths, where it is of 32 bits.
fn sum(a: Length, b: Length) -> Option<Length>
    ensures sum { IfSome result (λ l. l ≡ plus a b) }
    ensures fits { IfSome result (λ l. fits l ≡ true) }
{
    if b.lines == 0 {
        let cols = a.cols.checked_add(b.cols)?;
        Some(Length {
            lines: a.lines,
            cols,
        })
    } else {
        let lines = a.lines.checked_add(b.lines)?;
        Some(Length {
            lines,
            cols: b.cols,
        })
    }
}

fn is_less(a: Length, b: Length) -> bool
    ensures { result ≡ is_less a b }
{
    a.lines < b.lines || (a.lines == b.lines && a.cols < b.cols)
}

/// A change, and where it ends.
#[derive(Clone, Copy)]
struct Behind {
    change: Change,
    joint: Joint,
}

/// How far a change starts behind the end of the one before, how long it is, and how long what takes its place is.
#[derive(Clone, Copy)]
pub(crate) struct Piece {
    pub(crate) gap: Length,
    pub(crate) old: Length,
    pub(crate) new: Length,
}

/// A change some way behind a joint, where it lies behind it and is of 32 bits in both texts.
fn change_behind(joint: Joint, piece: Piece) -> Option<Behind>
    ensures order { IfSome result (λ b. is_less joint.old b.change.start ≡ true) }
    ensures fits { IfSome result (λ b. placed_fits (placed_at joint b.change) ≡ true) }
    ensures joint { IfSome result (λ b. b.joint ≡ end_joint joint b.change) }
{
    let start = sum(joint.old, piece.gap)?;
    let from = sum(joint.new, piece.gap)?;
    let end = sum(start, piece.old)?;
    let to = sum(from, piece.new)?;
    if !is_less(joint.old, start) {
        return None;
    }
    Some(Behind {
        change: Change {
            start,
            old: piece.old,
            new: piece.new,
        },
        joint: Joint { old: end, new: to },
    })
}

/// Changes with their places, and as a plain list.
#[derive(Drop)]
pub(crate) struct Both {
    pub(crate) spans: Spans,
    pub(crate) plain: Vec<Change>,
}

/// Changes of these pieces, but for those that aren't behind the ones before or not of 32 bits.
pub(crate) fn changes_of(alloc: Global, pieces: &[Piece]) -> Result<Both, AllocError> {
    let mut spans = Spans::none(alloc);
    let mut plain = Vec::new(alloc);
    let start = Length { lines: 0, cols: 0 };
    let mut joint = Joint {
        old: start,
        new: start,
    };
    for piece in pieces {
        if let Some(next) = change_behind(joint, *piece) {
            spans.push(next.change)?;
            plain.push(next.change)?;
            joint = next.joint;
        }
    }
    Ok(Both { spans, plain })
}

/// Changes that numbers tell.
pub(crate) fn changes_by(
    alloc: Global,
    numbers: &mut Numbers,
    count: u32,
) -> Result<Both, AllocError> {
    let mut pieces = Vec::new(alloc);
    for _ in 0..count {
        pieces.push(Piece {
            gap: numbers.length(),
            old: numbers.length(),
            new: numbers.length(),
        })?;
    }
    changes_of(alloc, pieces.as_slice())
}
