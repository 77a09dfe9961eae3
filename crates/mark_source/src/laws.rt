//! A law: the lines of a text with its marks are lines that a source may have.

ghost use Rattle.mark_source.specs.TextLaws.{LinesAreMarked, TextsAreMarked, UsualTextsHaveKinds};

/// The lines of a text with its marks are lines that a source may have.
#[tactic(auto, using(crate::proofs::TextMarks::lines_are_marked, crate::proofs::TextMarks::texts_are_marked, crate::proofs::TextMarks::usual_kinds))]
pub fn texts_have_marked_lines()
    ensures line { LinesAreMarked }
    ensures text { TextsAreMarked }
    ensures usual { UsualTextsHaveKinds }
{}
