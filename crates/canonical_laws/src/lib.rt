//! Laws of patterns in canonical form: what they match, and that a text has one.
#![tactic(auto)]

ghost use Rattle.std.specs.Prelude.{◌≡◌, ◌≢◌, ℕ, ◌<◌, List, map, Some, None, option_map, Bool, Ok, Err};
ghost use Rattle.char_sets.specs.Ranges.{in_set};
ghost use Rattle.pattern_defs.specs.declared.outcomes.Flags.{Flags};
ghost use Rattle.pattern_defs.specs.Patterns.{Tree};
ghost use Rattle.pattern_defs.specs.Attempt.{Captures, attempt};
ghost use Rattle.pattern_defs.specs.FirstMatch.{Pair, tried, first_pair, first_match, captures_after};
ghost use Rattle.syntax_defs.specs.declared.refusal.PatternRefusal.{PatternRefusal};
ghost use Rattle.syntax_defs.specs.declared.refusal.PatternRefusal.TheVariants.{Memory};
ghost use Rattle.syntax_defs.specs.PatternSyntax.{Parsed};
ghost use Rattle.syntax_defs.specs.PatternMeaning.{IsReadAs};
ghost use Rattle.syntax_defs.specs.Lengths.{read_pattern};
ghost use Rattle.canonical_patterns.specs.Canonical.{AreCodes, set_of, canonical};
ghost use Rattle.canonical_patterns.specs.ReadTrees.{tree_of, tree_read};
ghost use Rattle.onig_parse.specs.Reading.{GivesPattern};
ghost use Rattle.canonical_laws.specs.Pairs.{canonical_pair};

/// The set of the codes that pass a test has a code exactly where the code passes, and tests that agree on all codes
/// have one set.
pub fn sets_are_told_by_their_members()
    ensures has { (p : ℕ → Bool) (c : ℕ) → c < 1_114_112 → in_set (set_of p) c ≡ p c }
    ensures same { (p q : ℕ → Bool) → ((c : ℕ) → c < 1_114_112 → p c ≡ q c) → set_of p ≡ set_of q }
{}

/// A pattern and its canonical form match alike: each attempt ends the same, with the same captures and visits, and of
/// each search the same pair decides.
pub fn canonical_patterns_match_alike()
    ensures attempt { (tree : Tree) (text : List ℕ) (at : ℕ) (flags : Flags) (budget : ℕ) → AreCodes text →
        attempt (canonical tree) text at flags budget ≡ attempt tree text at flags budget }
    ensures tried { (text : List ℕ) (flags : Flags) (budget : ℕ) (pair : Pair) → AreCodes text →
        tried text flags budget (canonical_pair pair) ≡ tried text flags budget pair }
    ensures pair { (trees : List Tree) (text : List ℕ) (from : ℕ) (flags : Flags) (budget : ℕ) → AreCodes text →
        first_pair (map canonical trees) text from flags budget
        ≡ option_map canonical_pair (first_pair trees text from flags budget) }
    ensures found { (trees : List Tree) (text : List ℕ) (from : ℕ) (flags : Flags) (budget : ℕ) → AreCodes text →
        first_match (map canonical trees) text from flags budget ≡ first_match trees text from flags budget }
    ensures captures { (trees : List Tree) (text : List ℕ) (from : ℕ) (flags : Flags) (budget : ℕ)
        (last : Captures) → AreCodes text → captures_after (map canonical trees) text from flags budget last
        ≡ captures_after trees text from flags budget last }
{}

/// A text has one pattern in canonical form. What a reader answers, it tells, unless memory ran out.
pub fn texts_have_one_canonical_pattern()
    ensures one { (text : List ℕ) (tree : Tree) (parsed : Parsed) → IsReadAs text tree (Ok parsed) →
        canonical tree ≡ tree_of text parsed }
    ensures read { (text : List ℕ) (tree : Tree) → GivesPattern text (Ok tree) (read_pattern text) →
        tree_read text ≡ Some (canonical tree) }
    ensures refused { (text : List ℕ) (refusal : PatternRefusal) → refusal ≢ Memory →
        GivesPattern text (Err refusal) (read_pattern text) → tree_read text ≡ None }
{}
