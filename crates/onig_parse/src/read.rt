//! Reading a pattern from its text.

ghost use Rattle.std.specs.Prelude.{◌≡◌, ◌≤◌, false, length, IfOk};
ghost use Rattle.std.specs.Str.{chars};
ghost use Rattle.syntax_defs.specs.Lengths.{read_pattern, read_within, tested, kept_unless};
ghost use Rattle.syntax_defs.specs.PatternMeaning.{IsReadAs};
ghost use Rattle.onig_parse.specs.Reading.{GivesPattern};
ghost use Rattle.syntax_defs.specs.Limits.{most_pattern_chars};

use crate::late::late_fault;
use crate::lengths::lengths_of;
use crate::lower::lower;
use crate::parse::parse;
use char_sets::NamedSets;
use pattern_tree::Pattern;
use std::alloc::{AllocError, Global};
use syntax_defs::{MOST_PATTERN_CHARS, PatternRefusal};

/// The characters of a text.
fn chars_of(alloc: Global, text: &str) -> Result<Vec<char>, AllocError>
    ensures { IfOk result (λ cs. cs.items ≡ chars text.now) }
{
    text.chars().collect(alloc)
}

/// The pattern that a text is.
fn read_chars(alloc: Global, sets: &mut NamedSets, text: &[char]) -> Result<Pattern, PatternRefusal>
    requires { length text.now ≤ most_pattern_chars }
    ensures { GivesPattern text.now result (read_within false text.now) }
{
    let (parsed, classes) = parse(alloc, sets, text)?;
    let lengths = lengths_of(alloc, parsed.lists())?;
    if let Some(at) = late_fault(text, &parsed, &lengths) {
        return Err(PatternRefusal::LeftOut { at: at as u64 });
    }
    Ok(lower(alloc, sets, &classes, text, &parsed, &lengths)?)
}

/// A reader of pattern texts. The patterns that it reads share their named sets, as those of `\w` and `\p{Lu}`.
#[derive(Drop)]
pub struct PatternReader {
    alloc: Global,
    sets: NamedSets,
}

impl PatternReader {
    pub fn new(alloc: Global) -> PatternReader {
        PatternReader {
            alloc,
            sets: NamedSets::new(alloc),
        }
    }

    /// Reads a pattern from its text: Oniguruma's RE with Ruby syntax. Which forms are left out, the limits and the
    /// places of refusals are this project's own. What was read before changes no answer.
    pub fn read(&mut self, text: &str) -> Result<Pattern, PatternRefusal>
        ensures { GivesPattern (chars text.now) result (read_pattern (chars text.now)) }
    {
        let text = chars_of(self.alloc, text)?;
        let count = text.len();
        if count > MOST_PATTERN_CHARS {
            return Err(PatternRefusal::TooLong {
                count: count as u64,
            });
        }
        read_chars(self.alloc, &mut self.sets, text.as_slice())
    }
}

/// Reads one pattern from its text, as `PatternReader::read` does.
pub fn read_pattern(alloc: Global, text: &str) -> Result<Pattern, PatternRefusal>
    ensures { GivesPattern (chars text.now) result (read_pattern (chars text.now)) }
{
    PatternReader::new(alloc).read(text)
}
