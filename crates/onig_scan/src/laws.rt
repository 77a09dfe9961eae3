//! A law: a greater budget changes no answer of a search that isn't spent.

ghost use Rattle.std.specs.Prelude.{◌≡◌, ◌≢◌, ℕ, ◌+◌, List};
ghost use Rattle.pattern_defs.specs.declared.outcomes.Flags.{Flags};
ghost use Rattle.pattern_defs.specs.declared.outcomes.Found.TheVariants as found;
ghost use Rattle.pattern_defs.specs.Patterns.{Tree};
ghost use Rattle.pattern_defs.specs.Attempt.{Captures};
ghost use Rattle.pattern_defs.specs.FirstMatch.{first_match, captures_after};

use onig_match::a_greater_budget_changes_no_answer;

/// A search that isn't spent answers the same, with the same captures, at every greater budget.
pub fn a_greater_budget_changes_no_match()
    ensures found { (trees : List Tree) (text : List ℕ) (from : ℕ) (flags : Flags) (budget more : ℕ) →
        ((index at : ℕ) → first_match trees text from flags budget ≢ found.Spent index at) →
        first_match trees text from flags (budget + more) ≡ first_match trees text from flags budget }
    ensures captures { (trees : List Tree) (text : List ℕ) (from : ℕ) (flags : Flags) (budget more : ℕ)
        (last : Captures) →
        ((index at : ℕ) → first_match trees text from flags budget ≢ found.Spent index at) →
        captures_after trees text from flags (budget + more) last
        ≡ captures_after trees text from flags budget last }
{
    a_greater_budget_changes_no_answer();
}
