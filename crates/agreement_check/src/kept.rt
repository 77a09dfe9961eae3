//! Whether places of old lines outside changes have their places in new lines.

ghost use Rattle.std.specs.Prelude.{◌≡◌, ◌<◌, ◌^◌, length, Some, None};
ghost use Rattle.std.specs.List.{list_all};
ghost use Rattle.tree_defs.specs.Ends.{in_lines};
ghost use Rattle.change_defs.specs.Changes.{first_joint};
ghost use Rattle.agreement_check.specs.Checks.{last_in, is_behind, line_keeps, lines_keep, places_keep};

use crate::images::{carried, first_joint, is_less};
use change_defs::{Joint, Placed};
use text_pos::Length;

/// Whether a place is in a line of these lengths, at its end or before it.
fn is_in(lengths: &[u32], at: Length) -> bool
    ensures { result ≡ in_lines lengths.now at }
{
    match lengths.get(at.lines as usize) {
        Some(length) => at.cols <= *length,
        None => false,
    }
}

/// The last place of a line that isn't behind the start of the next change, if there is one and it lies in this line.
fn last_in(next: Option<Length>, line: u32, length: u32) -> Length
    ensures { result ≡ last_in next line length }
{
    let cols = match next {
        Some(start) if start.lines == line => length.min(start.cols),
        _ => length,
    };
    Length { lines: line, cols }
}

/// Whether the line lies behind that of the start of the next change.
fn is_behind(next: Option<Length>, line: u32) -> bool
    ensures { result ≡ is_behind next line }
{
    match next {
        Some(start) => start.lines < line,
        None => false,
    }
}

/// Whether the places of a line that lie between a joint and the next change, if there are any, lie in new lines.
fn line_keeps(joint: Joint, next: Option<Length>, new: &[u32], line: u32, length: u32) -> bool
    ensures { result ≡ line_keeps joint next new.now line length }
{
    let last = last_in(next, line, length);
    if is_less(last, joint.old) || is_behind(next, line) {
        return true;
    }
    match carried(joint, last) {
        Some(image) => is_in(new, image),
        None => false,
    }
}

/// The same of all lines.
fn lines_keep(joint: Joint, next: Option<Length>, old: &[u32], new: &[u32]) -> bool
    requires { length old.now < 2 ^ 32 }
    ensures { result ≡ lines_keep joint next new.now 0 old.now }
{
    for (n, length) in old.iter().enumerate() {
        let Ok(line) = u32::try_from(n) else {
            return false;
        };
        if !line_keeps(joint, next, new, line, *length) {
            return false;
        }
    }
    true
}

/// Whether each place of an old line from the end of a change up to the start of the next one, both included, has its place
/// in a new line; so too before the first change and behind the last.
pub(crate) fn places_keep(old: &[u32], new: &[u32], places: &[Placed]) -> bool
    requires { length old.now < 2 ^ 32 }
    ensures { result ≡ places_keep first_joint old.now new.now places.now }
{
    let mut joint = first_joint();
    for place in places {
        if !lines_keep(joint, Some(place.from.old), old, new) {
            return false;
        }
        joint = place.to;
    }
    lines_keep(joint, None, old, new)
}

/// Whether changes start in new lines.
pub(crate) fn starts_keep(new: &[u32], places: &[Placed]) -> bool
    ensures { result ≡ list_all (λ p. in_lines new.now p.from.new) places.now }
{
    places.iter().all(|place| is_in(new, place.from.new))
}
