//! The law that each edit of the generator is accepted by the text at hand.

ghost use Rattle.text_maker.specs.EditLaws.{MadeEditsAreAccepted, TextsStaySmall};

/// Each edit of the generator is in range of the text at hand, and what it makes is within the limits of a text: so only
/// for want of memory it isn't made.
pub fn made_edits_are_accepted()
    ensures accepted { MadeEditsAreAccepted }
    ensures small { TextsStaySmall }
{}
