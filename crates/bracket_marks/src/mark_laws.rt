//! Laws of marks: they never overlap, and they are the longest texts that stand there, with none missed.

ghost use Rattle.bracket_marks.specs.MarkLaws.{MarksAreInTheLine, MarksRise, MarksAreTheLongestTexts, NoTextIsMissed, LongLinesHaveNoMarks};

/// Whatever the texts and the line are, marks don't overlap, and each begins behind the one before it.
pub fn marks_rise()
    ensures within { MarksAreInTheLine }
    ensures in_order { MarksRise }
{}

/// The marks of a line are the longest texts that stand there, and none is missed.
pub fn marks_are_texts()
    ensures longest { MarksAreTheLongestTexts }
    ensures each { NoTextIsMissed }
    ensures too_long { LongLinesHaveNoMarks }
{}
