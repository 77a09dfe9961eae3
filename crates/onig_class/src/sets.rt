//! Sets of characters: ranges, single characters, the dot, and named sets.

ghost use Rattle.std.specs.Prelude.{◌≤◌, ℕ, Bool, IfOk};
ghost use Rattle.char_sets.specs.Case.{is_from_to};
ghost use Rattle.char_sets.specs.Named.{in_named};
ghost use Rattle.char_sets.specs.Ranges.{IsSetOf};
ghost use Rattle.syntax_defs.specs.Escapes.{complement_if};
ghost use Rattle.syntax_defs.specs.Classes.{test_folded, is_char_folded, is_dot};

use char_sets::{CharSet, NamedSet, NamedSets};
use std::alloc::{AllocError, Global};

/// The characters from `first` to `last`, and under `fold` those that are one of them in the other ASCII case.
pub(crate) fn char_range(
    alloc: Global,
    first: char,
    last: char,
    fold: bool,
) -> Result<CharSet, AllocError>
    requires { first ≤ last }
    ensures { IfOk result (λ s. IsSetOf s (test_folded fold (is_from_to first last))) }
{
    let range = CharSet::range(alloc, first, last)?;
    if fold {
        return range.with_other_case(alloc);
    }
    Ok(range)
}

/// The set of one character, and under `fold` of its other ASCII case.
pub fn one_char(alloc: Global, c: char, fold: bool) -> Result<CharSet, AllocError>
    ensures { IfOk result (λ s. IsSetOf s (is_char_folded fold c)) }
{
    char_range(alloc, c, c, fold)
}

/// What the dot stands for: any character but LF, and under `many` any character.
pub fn dot(alloc: Global, many: bool) -> Result<CharSet, AllocError>
    ensures { IfOk result (λ s. IsSetOf s (is_dot many)) }
{
    if many {
        return Ok(CharSet::all());
    }
    CharSet::one(alloc, '\n')?.complement(alloc)
}

/// A set or, where `negated`, its complement.
pub(crate) fn complement_if(
    alloc: Global,
    set: CharSet,
    negated: bool,
) -> Result<CharSet, AllocError>
    ensures { (p : ℕ → Bool) → IsSetOf set p → IfOk result (λ s. IsSetOf s (complement_if negated p)) }
{
    if negated {
        return set.complement(alloc);
    }
    Ok(set)
}

/// A named set or, where `negated`, its complement, which is shared with all who ask for it.
pub(crate) fn named_set(
    alloc: Global,
    sets: &mut NamedSets,
    set: NamedSet,
    negated: bool,
) -> Result<CharSet, AllocError>
    ensures { IfOk result (λ s. IsSetOf s (complement_if negated (in_named set))) }
{
    sets.get(alloc, set, negated)
}
