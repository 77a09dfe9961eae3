//! Whether the names of a selector's path match scopes in order.

ghost use Rattle.std.specs.Prelude.{◌≡◌, ◌-◌, ◌<◌, ◌≤◌, [], length, get_or};
ghost use Rattle.scope_defs.specs.Selectors.{name_matches, path_holds};

use scope_names::Scopes;
use text_pos::Bytes;

/// Whether a name matches a scope: equals it, or begins it up to a dot.
fn name_matches(name: &[u8], scope: &[u8]) -> bool
    ensures { result ≡ name_matches name.now scope.now }
{
    if !scope.starts_with(name) {
        return false;
    }
    match scope[name.len()..].first() {
        None => true,
        Some(next) => *next == b'.',
    }
}

/// Whether the last of so many names of a path matches a scope.
fn last_matches(names: &[Bytes], left: usize, scope: &str) -> bool
    requires some { 0 < left }
    requires there { left ≤ length names.now }
    ensures { result ≡ name_matches (get_or names.now (left - 1) []) scope.now }
{
    name_matches(names[left - 1].as_slice(), scope.as_bytes())
}

/// Whether the names of a path match scopes in this order. The last name takes the last scope that it matches, and so on.
pub(crate) fn path_holds(names: &[Bytes], scopes: &Scopes) -> bool
    ensures { result ≡ path_holds names.now scopes.now }
{
    let mut left = names.len();
    for scope in scopes.names_back() {
        if left == 0 {
            return true;
        }
        if last_matches(names, left, scope) {
            left -= 1;
        }
    }
    left == 0
}
