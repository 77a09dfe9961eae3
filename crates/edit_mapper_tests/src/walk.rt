//! A plain walk over changes, with which tests compare what is found by halves.

use edit_mapper::Change;
use text_pos::Length;

/// A length whose parts have room for any sum of a test.
#[derive(Clone, Copy, PartialEq, Eq)]
struct Wide {
    lines: u64,
    cols: u64,
}

fn widened(length: Length) -> Wide {
    Wide {
        lines: u64::from(length.lines),
        cols: u64::from(length.cols),
    }
}

/// A length again, where it is of 32 bits.
fn narrow(length: Wide) -> Option<Length> {
    match (u32::try_from(length.lines), u32::try_from(length.cols)) {
        (Ok(lines), Ok(cols)) => Some(Length { lines, cols }),
        _ => None,
    }
}

fn sum(front: Wide, rest: Wide) -> Wide {
    if rest.lines == 0 {
        Wide {
            lines: front.lines,
            cols: front.cols.saturating_add(rest.cols),
        }
    } else {
        Wide {
            lines: front.lines.saturating_add(rest.lines),
            cols: rest.cols,
        }
    }
}

fn rest(whole: Wide, front: Wide) -> Wide {
    if whole.lines == front.lines {
        Wide {
            lines: 0,
            cols: whole.cols.saturating_sub(front.cols),
        }
    } else {
        Wide {
            lines: whole.lines.saturating_sub(front.lines),
            cols: whole.cols,
        }
    }
}

fn is_before(place: Wide, other: Wide) -> bool {
    place.lines < other.lines || (place.lines == other.lines && place.cols < other.cols)
}

/// What a walk over changes finds for a place of the new text: its place in the old one, and how far behind it the next
/// change starts.
#[derive(Clone, Copy, Debug, PartialEq, Eq)]
pub(crate) struct Found {
    pub(crate) before: Option<Length>,
    pub(crate) distance: Option<Length>,
}

/// From the first change on: each is passed that ends at or before the place.
pub(crate) fn found_by_walk(changes: &[Change], offset: Length) -> Found {
    let place = widened(offset);
    let mut old = Wide { lines: 0, cols: 0 };
    let mut new = old;
    for change in changes {
        let from = sum(new, rest(widened(change.start), old));
        let to = sum(from, widened(change.new));
        if is_before(place, to) {
            if is_before(from, place) {
                return Found {
                    before: None,
                    distance: None,
                };
            }
            let before = narrow(sum(old, rest(place, new)));
            let gap = narrow(rest(from, place));
            return Found {
                before,
                distance: if before.is_some() { gap } else { None },
            };
        }
        old = sum(widened(change.start), widened(change.old));
        new = to;
    }
    Found {
        before: narrow(sum(old, rest(place, new))),
        distance: None,
    }
}
