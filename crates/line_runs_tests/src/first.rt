//! The result of a line that is the first of its text.

ghost use Rattle.std.specs.Prelude.{◌≡◌, ◌≤◌, length, IfOk};
ghost use Rattle.scope_defs.specs.Frames.{bare};
ghost use Rattle.line_runs.specs.Runs.{bare_result};

use line_runs::{LineRuns, LineTokens};
use line_text::Line;
use onig_match::Work;
use std::alloc::AllocError;
use std::sync::ledger::Ledger;
use step_count::Steps;
use text_defs::MOST_CHARS;

/// The result of a line that is the first of its text.
pub fn first_line<R: LineRuns, L: Ledger>(
    runs: &mut R,
    work: &mut Work,
    line: &Line,
    steps: &mut Steps<L>,
) -> Result<LineTokens, AllocError>
    requires short { length line.now ≤ MOST_CHARS }
    requires budget { work.old.budget ≡ (R.told runs.old).limits.budget }
    requires room { work.old.room ≡ (R.told runs.old).groups }
    ensures gives { IfOk result (λ r. bare_result r ≡ (R.told runs.old).line (bare (R.told runs.old).start) line.now) }
    ensures same { R.told runs.new ≡ R.told runs.old }
{
    let start = runs.start().copy()?;
    runs.tokenise(work, &start, line, steps)
}
