//! Whether two lists of marks are equal.

ghost use Rattle.std.specs.Prelude.{◌≡◌, ◌↔◌, IsTrue};

use pairing_defs::{Mark, Role};

fn is_same_role(a: Role, b: Role) -> bool
    ensures { IsTrue result ↔ (a ≡ b) }
{
    match (a, b) {
        (Role::Opener(kind), Role::Opener(other)) => kind == other,
        (Role::Closer(kinds), Role::Closer(others)) => kinds == others,
        _ => false,
    }
}

/// Whether two marks are equal.
fn is_same(a: Mark, b: Mark) -> bool
    ensures { IsTrue result ↔ (a ≡ b) }
{
    a.at.line == b.at.line && a.at.col == b.at.col && a.to == b.to && is_same_role(a.role, b.role)
}

/// Whether two lists of marks are equal.
pub(crate) fn are_same_marks(a: &[Mark], b: &[Mark]) -> bool
    ensures { IsTrue result ↔ (a.now ≡ b.now) }
{
    if a.len() != b.len() {
        return false;
    }
    for (n, mark) in a.iter().enumerate() {
        if !is_same(*mark, b[n]) {
            return false;
        }
    }
    true
}
