//! The run over the lines of a text, for the marks of all lines and the tokens of one.

ghost use Rattle.std.specs.Prelude.{◌≡◌, ◌<◌, ◌^◌, [], ◌∷◌, ◌++◌, length, slice_index_or, IfOk, OnOk};
ghost use Rattle.text_defs.specs.Text.{line_count};
ghost use Rattle.text_defs.specs.Place.{place_of};
ghost use Rattle.bracket_marks.specs.MarkedLine.{marks_in, text_end};
ghost use Rattle.document_defs.specs.TextRows.{marks_in_text, tokens_of, types_of};
ghost use Rattle.document.specs.Settings.{settings_by};

use bracket_lex::{Brackets, MarkLines};
use line_runs::{LineRuns, LineTokens};
use line_text::Text;
use onig_match::Work;
use scope_defs::TypeRun;
use scope_stack::Token;
use std::alloc::{AllocError, Global};
use std::sync::ledger::Ledger;
use step_count::Steps;
use text_defs::MOST_CHARS;
use text_pos::Limits;

/// What lines are run over: a text, the texts that are brackets in it, and the limits.
#[derive(Clone, Copy)]
pub(crate) struct Over<'a> {
    pub(crate) alloc: Global,
    pub(crate) text: &'a Text,
    pub(crate) brackets: &'a Brackets,
    pub(crate) limits: Limits,
}

/// Fills a list with the types of tokens.
fn fill_types(types: &mut Vec<TypeRun>, tokens: &[Token]) -> Result<(), AllocError>
    ensures { OnOk result (types.new.items ≡ types_of tokens.now) }
{
    types.clear();
    for token in tokens {
        types.push(TypeRun {
            to: token.to,
            kind: token.scopes.std_type(),
        })?;
    }
    Ok(())
}

/// The marks of all lines: each line is run from where the line before it ended, and its marks are texts in tokens of type
/// Other.
pub(crate) fn mark_lines<R: LineRuns, L: Ledger>(
    over: &Over<'_>,
    machine: &mut R,
    work: &mut Work,
    steps: &mut Steps<L>,
) -> Result<MarkLines, AllocError>
    requires budget { work.old.budget ≡ (R.told machine.old).limits.budget }
    requires room { work.old.room ≡ (R.told machine.old).groups }
    ensures marks { IfOk result (λ lines. marks_in lines
        ≡ marks_in_text (settings_by (R.told machine.old) over.now.brackets.now over.now.limits) over.now.text.now) }
    ensures few { IfOk result (λ lines. length (marks_in lines) < 2 ^ 32) }
    ensures some { IfOk result (λ lines. 0 < length lines) }
    ensures end { IfOk result (λ lines. text_end lines ≡ place_of over.now.text.now (length over.now.text.now)) }
    ensures same { R.told machine.new ≡ R.told machine.old }
    ensures budget { work.new.budget ≡ work.old.budget }
    ensures room { work.new.room ≡ work.old.room }
{
    prove!(u64::from(over.text.chars()) <= MOST_CHARS);
    let mut start = machine.start().copy()?;
    let mut types = Vec::new(over.alloc);
    let mut lines = MarkLines::new(over.alloc);
    for n in 0..over.text.lines() {
        let line = over.text.line(n);
        let run = machine.tokenise(work, &start, line, steps)?;
        fill_types(&mut types, run.tokens().as_slice())?;
        lines.push(
            over.brackets
                .marks(over.alloc, line, &types, over.limits.long)?,
        )?;
        start = run.end().copy()?;
    }
    Ok(lines)
}

/// What line n gives: the lines before it are run first.
pub(crate) fn run_line<R: LineRuns, L: Ledger>(
    over: &Over<'_>,
    n: u32,
    machine: &mut R,
    work: &mut Work,
    steps: &mut Steps<L>,
) -> Result<LineTokens, AllocError>
    requires there { n < line_count over.now.text.now }
    requires budget { work.old.budget ≡ (R.told machine.old).limits.budget }
    requires room { work.old.room ≡ (R.told machine.old).groups }
    ensures tokens { IfOk result (λ run. run.tokens ≡ slice_index_or
        (tokens_of (settings_by (R.told machine.old) over.now.brackets.now over.now.limits) over.now.text.now) n []) }
    ensures same { R.told machine.new ≡ R.told machine.old }
    ensures budget { work.new.budget ≡ work.old.budget }
    ensures room { work.new.room ≡ work.old.room }
{
    let mut start = machine.start().copy()?;
    for m in 0..n {
        let earlier = machine.tokenise(work, &start, over.text.line(m), steps)?;
        start = earlier.end().copy()?;
    }
    let run = machine.tokenise(work, &start, over.text.line(n), steps)?;
    Ok(run)
}
