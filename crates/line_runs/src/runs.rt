//! The trait of what gives the tokens of a line from a start.

ghost use Rattle.std.specs.Prelude.{◌≡◌, ℕ, ◌+◌, ◌≤◌, List, length, IfOk};
ghost use Rattle.scope_defs.specs.Frames.{Start, bare};
ghost use Rattle.line_defs.specs.Line.{LineResult};
ghost use Rattle.line_defs.specs.Following.{Follow};
ghost use Rattle.line_runs.specs.Runs.{Runs, Fits, bare_result, risen};

use crate::line_tokens::LineTokens;
use line_text::Line;
use onig_match::Work;
use scope_stack::State;
use std::alloc::AllocError;
use std::sync::ledger::Ledger;
use step_count::Steps;
use text_defs::MOST_CHARS;
use text_pos::Limits;

/// What gives the tokens of a line from a start.
pub trait LineRuns {
    /// Its start, its limits, and the result of each line from each start.
    ghost told: { Self → Runs };

    /// How many runs it has made.
    ghost count: { Self → ℕ };

    /// What the first line of a text starts from. Each line from a start that fits has a token, and its tokens follow
    /// one another to the line's end.
    fn start(&self) -> &State
        ensures start { result.now ≡ (told self.now).start }
        ensures follow { (start : Start) (line : List ℕ) → Fits (told self.now) start →
            Follow ((told self.now).line start line).tokens (length line) };

    /// How many groups its patterns have at most.
    fn groups(&self) -> u32
        ensures { result ≡ (told self.now).groups };

    fn limits(&self) -> Limits
        ensures { result ≡ (told self.now).limits };

    /// The result of the line from the start. It takes one step, whatever it answers.
    fn tokenise<L: Ledger>(
        &mut self,
        work: &mut Work,
        start: &State,
        line: &Line,
        steps: &mut Steps<L>,
    ) -> Result<LineTokens, AllocError>
        requires short { length line.now ≤ MOST_CHARS }
        requires fits { Fits (told self.old) (bare start.now) }
        requires budget { work.old.budget ≡ (told self.old).limits.budget }
        requires room { work.old.room ≡ (told self.old).groups }
        ensures gives { IfOk result (λ r. bare_result r ≡ (told self.old).line (bare start.now) line.now) }
        ensures step { steps.new ≡ steps.old + 1 }
        ensures rises { count self.new ≡ risen (count self.old) }
        ensures never_falls { count self.old ≤ count self.new }
        ensures same { told self.new ≡ told self.old }
        ensures budget { work.new.budget ≡ work.old.budget }
        ensures room { work.new.room ≡ work.old.room };
}
