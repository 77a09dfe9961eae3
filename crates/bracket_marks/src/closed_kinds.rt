//! The kinds of openers that a text closes.

ghost use Rattle.std.specs.Prelude.{◌≡◌, ◌<◌, ◌≤◌, ◌==◌, ◌||◌, ℕ, false, if◌then◌else◌, length};
ghost use Rattle.text_pos.specs.KindSet.{has_kind};
ghost use Rattle.pairing_defs.specs.BracketTexts.{are_paired, closed_by, kinds_of};

use pairing_defs::{MOST_KINDS, PairText};
use text_pos::{Kinds, Name};

/// The kinds that a text closes: those of the openers with which it is a pair.
pub(crate) fn closed_by(kept: &[PairText], openers: &[Name], closer: &str) -> Kinds
    requires few { length openers.now ≤ MOST_KINDS }
    requires all { openers.now ≡ kinds_of kept.now }
    ensures { result ≡ closed_by kept.now closer.now }
{
    let mut kinds = Kinds::empty();
    for n in 0..openers.len() {
        let closes = are_paired(kept, openers[n].text(), closer);
        kinds = with_if(kinds, n as u32, closes);
    }
    kinds
}

/// The kinds, and one more where it is closed.
fn with_if(kinds: Kinds, kind: u32, closes: bool) -> Kinds
    requires { kind < 64 }
    ensures { (j : ℕ) → has_kind result j ≡ (has_kind kinds j || (if closes then j == kind else false)) }
{
    if closes {
        kinds.with(Kinds::one(kind))
    } else {
        kinds
    }
}

/// Whether two texts are a pair.
fn are_paired(kept: &[PairText], opener: &str, closer: &str) -> bool
    ensures { result ≡ are_paired kept.now opener.now closer.now }
{
    kept.iter().any(|pair| pair.opener.text() == opener && pair.closer.text() == closer)
}
