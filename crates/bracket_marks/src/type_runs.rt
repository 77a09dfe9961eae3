//! Which columns of a line lie in tokens of type Other.

ghost use Rattle.std.specs.Prelude.{◌≡◌, ◌<◌, ◌≤◌, ◌+◌, ◌^◌, ℕ, nat_lt};
ghost use Rattle.std.specs.List.{find};
ghost use Rattle.std.specs.Option.{option_copied};
ghost use Rattle.pairing_defs.specs.Marks.{all_count, counts_by, is_other};

use scope_defs::{StdType, TypeRun};

/// What is left of the runs from a column on: those before it are let go.
pub(crate) fn runs_behind(types: &[TypeRun], column: usize) -> &[TypeRun]
    ensures { (k : ℕ) → column ≤ k → counts_by result.now k ≡ counts_by types.now k }
{
    for n in 0..types.len() {
        if column < types[n].to as usize {
            return &types[n..];
        }
    }
    &[]
}

/// Whether so many columns count, this one and those behind it.
pub(crate) fn all_count(types: &[TypeRun], column: usize, many: usize) -> bool
    requires { column + many < 2 ^ 64 }
    ensures { result ≡ all_count (counts_by types.now) column many }
{
    for n in 0..many {
        if !counts(types, column + n) {
            return false;
        }
    }
    true
}

/// Whether a column counts: the first run that ends behind it is of type Other.
fn counts(types: &[TypeRun], column: usize) -> bool
    ensures { result ≡ counts_by types.now column }
{
    match run_at(types, column) {
        Some(run) => is_other(run.kind),
        None => true,
    }
}

fn run_at(types: &[TypeRun], column: usize) -> Option<&TypeRun>
    ensures { option_copied result ≡ find (λ run. nat_lt column run.to) types.now }
{
    types.iter().find(|run| column < run.to as usize)
}

fn is_other(kind: StdType) -> bool
    ensures { result ≡ is_other kind }
{
    match kind {
        StdType::Other => true,
        StdType::Comment | StdType::Text | StdType::RegEx => false,
    }
}
