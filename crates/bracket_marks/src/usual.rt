//! The usual brackets: braces, square brackets and parentheses.

ghost use Rattle.std.specs.Prelude.{◌≡◌, ◌∷◌, ◌++◌, [], IfOk, OnOk};
ghost use Rattle.pairing_defs.specs.Marks.{usual_texts};
ghost use Rattle.pairing_defs.specs.BracketTexts.{usual_pairs};

use crate::brackets::{BracketRefusal, Brackets};
use pairing_defs::{PairText, PairTexts};
use std::alloc::{AllocError, Global};
use text_pos::Name;

impl Brackets {
    /// The brackets of `{` and `}`, `[` and `]`, `(` and `)`, of the kinds 0, 1 and 2. They are this project's own.
    pub fn usual(alloc: Global) -> Result<Brackets, AllocError>
        ensures { IfOk result (λ b. b ≡ usual_texts) }
    {
        let pairs = usual_pairs(alloc)?;
        match Brackets::new(alloc, &pairs) {
            Ok(brackets) => Ok(brackets),
            Err(BracketRefusal::Memory) => Err(AllocError),
            Err(BracketRefusal::TooManyKinds { .. }) => unreachable!(),
            Err(BracketRefusal::TextLength { .. }) => unreachable!(),
        }
    }
}

fn usual_pairs(alloc: Global) -> Result<PairTexts, AllocError>
    ensures { IfOk result (λ pairs. pairs ≡ usual_pairs) }
{
    let mut pairs = PairTexts::new(alloc);
    add_pair(alloc, &mut pairs, "{", "}")?;
    add_pair(alloc, &mut pairs, "[", "]")?;
    add_pair(alloc, &mut pairs, "(", ")")?;
    Ok(pairs)
}

fn add_pair(
    alloc: Global,
    pairs: &mut PairTexts,
    opener: &str,
    closer: &str,
) -> Result<(), AllocError>
    ensures { OnOk result (pairs.new ≡ pairs.old ++ record { opener = opener.now; closer = closer.now } ∷ []) }
{
    let opener = Name::of(alloc, opener)?;
    let closer = Name::of(alloc, closer)?;
    pairs.push(PairText { opener, closer })?;
    Ok(())
}
