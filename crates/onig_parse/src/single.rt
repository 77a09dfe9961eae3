//! Reading a single character or set.

ghost use Rattle.std.specs.Prelude.{◌≡◌, ◌≤◌, length, drop, slice_get, Some};
ghost use Rattle.char_sets.specs.Ranges.{IsSetOf};
ghost use Rattle.syntax_defs.specs.Reading.{Gives};
ghost use Rattle.syntax_defs.specs.Escapes.{escape_at};
ghost use Rattle.syntax_defs.specs.Singles.{escaped_single, single_at};
ghost use Rattle.syntax_defs.specs.Limits.{most_levels, most_pattern_chars};

use char_sets::{CharSet, NamedSets};
use onig_class::{Escaped, dot, one_char, read_class, read_escape};
use std::alloc::Global;
use syntax_defs::{Options, PatternRefusal};

/// The set of an escape that is a character or a set.
fn read_escaped(
    alloc: Global,
    sets: &mut NamedSets,
    text: &[char],
    at: usize,
    fold: bool,
) -> Result<(CharSet, usize), PatternRefusal>
    requires there { slice_get text.now at ≡ Some 92 }
    requires short { length text.now ≤ most_pattern_chars }
    ensures { Gives IsSetOf text.now result (escaped_single fold (escape_at at (drop at text.now))) }
{
    let (escaped, next) = read_escape(alloc, sets, text, at)?;
    match escaped {
        Escaped::Char(c) => Ok((one_char(alloc, c, fold)?, next)),
        Escaped::Set(set) => Ok((set, next)),
    }
}

/// The single character or set that begins at a place inside so many forms, and the place behind it.
pub(crate) fn read_single(
    alloc: Global,
    sets: &mut NamedSets,
    text: &[char],
    at: usize,
    options: Options,
    depth: u32,
) -> Result<(CharSet, usize), PatternRefusal>
    requires short { length text.now ≤ most_pattern_chars }
    requires place { at ≤ most_pattern_chars }
    requires few { depth ≤ most_levels }
    ensures { Gives IsSetOf text.now result (single_at options depth at (drop at text.now)) }
{
    match text.get(at) {
        None => Err(PatternRefusal::Syntax { at: at as u64 }),
        Some('.') => Ok((dot(alloc, options.dot_all)?, at + 1)),
        Some('\\') => read_escaped(alloc, sets, text, at, options.any_case),
        Some('[') => read_class(alloc, sets, text, at, options.any_case, depth),
        Some(c) => Ok((one_char(alloc, *c, options.any_case)?, at + 1)),
    }
}
