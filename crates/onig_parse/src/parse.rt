//! The items of a pattern text, or the first fault that its reading meets.

ghost use Rattle.std.specs.Prelude.{◌≡◌, ◌≤◌, length, IfOk};
ghost use Rattle.syntax_defs.specs.Reading.{Answers};
ghost use Rattle.syntax_defs.specs.PatternSyntax.{no_options, parse, start, whole_by};
ghost use Rattle.syntax_defs.specs.Limits.{most_pattern_chars};
ghost use Rattle.onig_parse.specs.KeptClasses.{AreKeptClasses};

use crate::kept::KeptClass;
use crate::parsed::ParsedText;
use crate::reader::Reader;
use char_sets::NamedSets;
use std::alloc::Global;
use syntax_defs::{MOST_LEVELS, Options, PatternRefusal};

/// The options that hold where a text begins.
fn no_options() -> Options
    ensures { result ≡ no_options }
{
    Options {
        any_case: false,
        dot_all: false,
        spaced: false,
    }
}

/// The items of a text and the sets of its classes, or the first fault that a reading from left to right meets.
pub(crate) fn parse(
    alloc: Global,
    sets: &mut NamedSets,
    text: &[char],
) -> Result<(ParsedText, Vec<KeptClass>), PatternRefusal>
    requires { length text.now ≤ most_pattern_chars }
    ensures value { Answers (λ found. found.0) result (parse text.now) }
    ensures classes { IfOk result (λ found. AreKeptClasses text.now found.1.items) }
{
    let mut reader = Reader::new(alloc, Vec::from_slice(alloc, text)?);
    let body = reader.body(sets, no_options(), MOST_LEVELS + 1)?;
    if !reader.rest().is_empty() {
        return Err(reader.here().bad());
    }
    let top = reader.body_list(body)?;
    Ok(reader.into_parts(top))
}
