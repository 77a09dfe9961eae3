//! The trait of all that a parse sees of the marks of a text.

ghost use Rattle.std.specs.Prelude.{◌≡◌, ℕ, ◌+◌, ◌<◌, ◌≤◌, length, false};
ghost use Rattle.bracket_marks.specs.MarkedLine.{text_end};
ghost use Rattle.mark_source.specs.Source.{Source, ahead, first, start_of, at_place, behind, steps_for, is_before, AreMarked};

use pairing_defs::Mark;
use std::sync::ledger::Ledger;
use step_count::Steps;
use text_pos::Pos;

/// All that a parse sees of the marks of a text. Only `next` changes the count of the marks that were given, which never
/// falls.
pub trait MarkSource {
    /// The lines, the place that was reached, and the count.
    ghost told: { Self → Source };

    /// The place of the text's end.
    fn end(&self) -> Pos
        requires { 0 < length (told self.now).lines }
        ensures { result ≡ text_end (told self.now).lines };

    /// Goes to a place that doesn't lie before the one that was reached.
    fn seek(&mut self, to: Pos)
        requires { is_before to (told self.old).place ≡ false }
        ensures { told self.new ≡ at_place to (told self.old) };

    /// Where the next mark starts: the first that starts at or behind the place that was reached.
    fn peek(&self) -> Option<Pos>
        ensures place { result ≡ start_of (first (ahead (told self.now))) }
        // the marks of each line stand in order without overlap, take some columns each and end in it
        ensures marked { AreMarked (told self.now).lines };

    /// The next mark. The place is then its end, and one step is taken; where there is none, nothing changes.
    fn next<M: Ledger>(&mut self, marks: &mut Steps<M>) -> Option<Mark>
        ensures mark { result ≡ first (ahead (told self.old)) }
        ensures place { told self.new ≡ behind result (told self.old) }
        ensures step { marks.new ≡ marks.old + steps_for result };
}
