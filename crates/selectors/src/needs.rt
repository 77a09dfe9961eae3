//! The keys of names that scopes need for an entry of a selector to hold.

ghost use Rattle.std.specs.Prelude.{◌≡◌, ◌-◌, ◌<◌, ◌^◌, ◌++◌, [], false, map, IfOk, IfSome, OnOk};
ghost use Rattle.scope_names.specs.Keys.{key_of};
ghost use Rattle.selectors.specs.Needs.{LacksOne, LacksOfEach, SignsNeed, keys_at, most_held, most_behind};
ghost use Rattle.selectors.specs.Verdicts.{depth};

use crate::sign::Sign;
use crate::verdict::{Verdict, behind_failed, joined};
use scope_names::Scopes;
use scope_names::keys::key_of;
use std::alloc::{AllocError, Global};
use text_pos::{Bytes, Items};

/// Keys of names. Scopes without all keys of any one of these lists don't meet what needs them.
pub type Needed = Items<Items<u64>>;

/// Whether names of scopes may have all of some keys.
fn may_have_all(keys: &[u64], scopes: &Scopes) -> bool
    ensures { (result ≡ false) → LacksOne keys.now scopes.now }
{
    for key in keys {
        if !scopes.may_have(*key) {
            return false;
        }
    }
    true
}

/// Whether scopes may meet what needs these keys.
pub fn may_meet(scopes: &Scopes, needed: &[Items<u64>]) -> bool
    ensures { (result ≡ false) → LacksOfEach needed.now scopes.now }
{
    for keys in needed {
        if may_have_all(keys.as_slice(), scopes) {
            return true;
        }
    }
    false
}

/// The keys of the names of a path.
fn keys_of_path(alloc: Global, names: &[Bytes]) -> Result<Items<u64>, AllocError>
    ensures { IfOk result (λ keys. keys ≡ map key_of names.now) }
{
    let mut keys = Items::new(alloc);
    for name in names {
        keys.push(key_of(name.as_slice()))?;
    }
    Ok(keys)
}

/// Adds the keys of a path which is asked and must hold.
fn push_keys(
    alloc: Global,
    needed: &mut Needed,
    most: Verdict,
    sign: &Sign,
) -> Result<(), AllocError>
    ensures { OnOk result (needed.new ≡ needed.old ++ keys_at most sign.now) }
{
    match sign {
        Sign::Path { names, wanted } => {
            if *wanted && matches!(most, Verdict::Holds) {
                return needed.push(keys_of_path(alloc, names.as_slice())?);
            }
            Ok(())
        }
        _ => Ok(()),
    }
}

/// The most that is known behind one more sign where an alternative may hold.
fn most_held(inside: usize, sign: &Sign) -> Verdict
    requires { inside < 2 ^ 64 - 1 }
    ensures { result ≡ most_held sign.now inside }
{
    match sign {
        Sign::Path { .. } | Sign::Next => Verdict::Held { inside },
        Sign::Opens => Verdict::Held { inside: inside + 1 },
        Sign::Closes { .. } => {
            if inside == 0 {
                Verdict::Holds
            } else {
                Verdict::Held { inside: inside - 1 }
            }
        }
    }
}

/// The most that is known behind one more sign, where no path that is asked and must hold does. What must not hold may
/// fail or not.
fn most_behind(most: Verdict, sign: &Sign) -> Verdict
    requires { depth most < 2 ^ 64 - 1 }
    ensures { result ≡ most_behind sign.now most }
{
    match most {
        Verdict::Holds => match sign {
            Sign::Path { wanted, .. } => joined(false, *wanted),
            Sign::Opens | Sign::Closes { .. } => most,
            Sign::Next => Verdict::Held { inside: 0 },
        },
        Verdict::Fails { inside } => behind_failed(inside, sign),
        Verdict::Held { inside } => most_held(inside, sign),
    }
}

/// Keys that scopes need for an entry to hold: those of each path that must hold inside its own parentheses and that is
/// reached where no such path before it holds; what must not hold may fail or not. There are none where the entry may
/// hold without any such path.
pub(crate) fn needed_keys(alloc: Global, signs: &[Sign]) -> Result<Option<Needed>, AllocError>
    ensures { IfOk result (λ needed. IfSome needed (SignsNeed signs.now)) }
{
    let mut needed = Needed::new(alloc);
    let mut most = Verdict::Holds;
    for sign in signs {
        push_keys(alloc, &mut needed, most, sign)?;
        most = most_behind(most, sign);
    }
    match most {
        Verdict::Fails { .. } => Ok(Some(needed)),
        _ => Ok(None),
    }
}
