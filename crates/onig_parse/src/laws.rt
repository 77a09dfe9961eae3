//! Laws of reading a pattern text, as its definition tells it.

ghost use Rattle.onig_parse.specs.ReadingLaws.{EachClassTakesACharacter, EachFaultFitsItsText, EachMemberTakesACharacter, EachStepTakesACharacter, MembersSuffice, PlainTextsAreRead, StepsSuffice};

/// Why a text is refused fits the text: a place is one of its characters or its end, a depth is one above the limit
/// of levels or of repeats, and a count is that of its characters, which is above the limit.
pub fn each_fault_fits_its_text()
    ensures { EachFaultFitsItsText }
{}

/// No reading of a body stops for want of steps: each step behind which it goes on has taken a character, so where
/// there are more than characters that are left, with any more the same is read.
pub fn steps_suffice()
    ensures takes { EachStepTakesACharacter }
    ensures same { StepsSuffice }
{}

/// The same of the members of a class.
pub fn members_suffice()
    ensures takes { EachMemberTakesACharacter }
    ensures nested { EachClassTakesACharacter }
    ensures same { MembersSuffice }
{}

/// A text without signs is one list, which has an item for each character in its order, and that takes just it.
pub fn plain_texts_are_read()
    ensures { PlainTextsAreRead }
{}
