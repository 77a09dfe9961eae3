//! A law: a greater budget changes no answer of an attempt that isn't spent.

ghost use Rattle.std.specs.Prelude.{◌≡◌, ◌≢◌, ℕ, ◌+◌, List};
ghost use Rattle.pattern_defs.specs.declared.outcomes.Flags.{Flags};
ghost use Rattle.pattern_defs.specs.declared.outcomes.Outcome.TheVariants as outcomes;
ghost use Rattle.pattern_defs.specs.Patterns.{Tree};
ghost use Rattle.pattern_defs.specs.Attempt.{Captures, attempt, outcome_of, last_hit_captures};

/// An attempt that isn't spent answers the same, with the same captures, at every greater budget.
pub fn a_greater_budget_changes_no_answer()
    ensures outcome { (tree : Tree) (text : List ℕ) (at : ℕ) (flags : Flags) (budget more : ℕ) →
        outcome_of (attempt tree text at flags budget) ≢ outcomes.Spent →
        outcome_of (attempt tree text at flags (budget + more))
        ≡ outcome_of (attempt tree text at flags budget) }
    ensures captures { (tree : Tree) (text : List ℕ) (at : ℕ) (flags : Flags) (budget more : ℕ)
        (last : Captures) →
        outcome_of (attempt tree text at flags budget) ≢ outcomes.Spent →
        last_hit_captures (attempt tree text at flags (budget + more)) last
        ≡ last_hit_captures (attempt tree text at flags budget) last }
{}
