//! The law that a text that is no selector is refused at its first fault, or where it nests too deep.

ghost use Rattle.std.specs.Prelude.{◌≡◌, ℕ, List, Err};
ghost use Rattle.scope_defs.specs.SelectorSyntax.{read_selector};
ghost use Rattle.selectors.specs.RefusalLaws.{IsFirstFault};

/// A text that is no selector is refused at the first character that no selector, however deep, has behind what stands
/// before it, or at its end where only more would make it one; or before that where an operand stands too deep.
pub fn refusals_are_first_faults()
    ensures { (text : List ℕ) (at : ℕ) → read_selector text ≡ Err at → IsFirstFault text at }
{}
