//! Whether the signs of an entry hold of scopes, read one after the other.

ghost use Rattle.std.specs.Prelude.{◌≡◌, ◌-◌, ◌<◌, ◌^◌};
ghost use Rattle.selectors.specs.Verdicts.{behind, behind_failed, joined, run, is_true, depth};

use crate::paths::path_holds;
use crate::sign::Sign;
use scope_names::Scopes;

/// What is known of the operands that were read so far, of the innermost parentheses that aren't passed over.
#[derive(Clone, Copy)]
pub(crate) enum Verdict {
    /// All of the alternative at hand hold.
    Holds,
    /// One of them doesn't, so the alternative is passed over; so many parentheses are open in it.
    Fails { inside: usize },
    /// An alternative holds, so the others are passed over; so many parentheses are open in them.
    Held { inside: usize },
}

/// The verdict behind what must hold or must not.
pub(crate) fn joined(holds: bool, wanted: bool) -> Verdict
    ensures { result ≡ joined holds wanted }
{
    if holds == wanted {
        Verdict::Holds
    } else {
        Verdict::Fails { inside: 0 }
    }
}

/// The verdict behind one more sign where an alternative is passed over, with so many parentheses open in it.
pub(crate) fn behind_failed(inside: usize, sign: &Sign) -> Verdict
    requires { inside < 2 ^ 64 - 1 }
    ensures { result ≡ behind_failed sign.now inside }
{
    match sign {
        Sign::Path { .. } => Verdict::Fails { inside },
        Sign::Opens => Verdict::Fails { inside: inside + 1 },
        Sign::Closes { wanted } => {
            if inside == 0 {
                joined(false, *wanted)
            } else {
                Verdict::Fails { inside: inside - 1 }
            }
        }
        Sign::Next => {
            if inside == 0 {
                Verdict::Holds
            } else {
                Verdict::Fails { inside }
            }
        }
    }
}

/// The verdict behind one more sign.
fn behind(verdict: Verdict, sign: &Sign, scopes: &Scopes) -> Verdict
    requires { depth verdict < 2 ^ 64 - 1 }
    ensures { result ≡ behind scopes.now sign.now verdict }
{
    match verdict {
        Verdict::Holds => match sign {
            Sign::Path { names, wanted } => joined(path_holds(names.as_slice(), scopes), *wanted),
            Sign::Opens => Verdict::Holds,
            Sign::Closes { wanted } => joined(true, *wanted),
            Sign::Next => Verdict::Held { inside: 0 },
        },
        Verdict::Fails { inside } => behind_failed(inside, sign),
        Verdict::Held { inside } => match sign {
            Sign::Path { .. } | Sign::Next => verdict,
            Sign::Opens => Verdict::Held { inside: inside + 1 },
            Sign::Closes { wanted } => {
                if inside == 0 {
                    joined(true, *wanted)
                } else {
                    Verdict::Held { inside: inside - 1 }
                }
            }
        },
    }
}

/// Whether what some signs stand for holds of scopes.
pub(crate) fn signs_hold(signs: &[Sign], scopes: &Scopes) -> bool
    ensures { result ≡ is_true (run scopes.now signs.now Verdict.Holds) }
{
    let mut verdict = Verdict::Holds;
    for sign in signs {
        verdict = behind(verdict, sign, scopes);
    }
    !matches!(verdict, Verdict::Fails { .. })
}
