//! An open text with its brackets and limits, which takes edits and answers questions.

ghost use Rattle.std.specs.Prelude.{◌≡◌, ◌<◌, ◌≤◌, [], false, None, All, length, slice_index_or, IfOk, IfErr, OnOk, OnErr};
ghost use Rattle.text_defs.specs.Text.{line_count};
ghost use Rattle.text_defs.specs.Batch.{batch_refusal, edited};
ghost use Rattle.line_text.specs.BatchRefusals.{HasCause};
ghost use Rattle.answer_defs.specs.Answers.{question_refusal};
ghost use Rattle.answer_defs.specs.TokenAnswers.{tokens_in};
ghost use Rattle.document_defs.specs.TextRows.{rows_of, tokens_of};
ghost use Rattle.document_defs.specs.DocumentAnswers.{answer_of};
ghost use Rattle.document.specs.AskRefusals.{HasAskCause, is_memory};
ghost use Rattle.document.specs.Settings.{settings_by};

use crate::answers::{answer_of_rows, line_chars, typed_tokens};
use crate::lines::{Over, mark_lines, run_line};
use crate::refusals::question_refusal;
use answer_defs::{Answer, MOST_TAB, Question, QuestionRefusal, TypedTokens};
use bracket_lex::{Brackets, Paired};
use line_runs::LineRuns;
use line_text::{Edit, EditRefusal, Edited, Text};
use onig_match::Work;
use std::alloc::{AllocError, Global};
use std::marker::{Brand, Model};
use std::sync::ledger::{Blank, Ledger};
use step_count::Steps;
use text_pos::Limits;
use thiserror::Error;

/// An open text, with what gives the tokens of its lines, its brackets and its limits.
#[derive(Drop)]
pub struct Document<R: LineRuns> {
    text: Text,
    machine: R,
    work: Work,
    brackets: Brackets,
    limits: Limits,
}

impl<R: LineRuns> Model for Document<R> {
    ghost use Rattle.document.specs.State.{State};

    ghost Value = { State R };

    ghost view = { λ d. record { text = d.text; machine = d.machine; texts = d.brackets; limits = d.limits } };

    ghost use Rattle.std.specs.Prelude.{◌≡◌, ◌≤◌};
    ghost use Rattle.answer_defs.specs.declared.answer.TheConstants.{MOST_TAB};

    ghost invariant = { λ d. (1 ≤ d.limits.tab) × (d.limits.tab ≤ MOST_TAB)
        × (d.work.budget ≡ (R.told d.machine).limits.budget) × (d.work.room ≡ (R.told d.machine).groups) };
}

/// Why a question has no answer.
#[derive(Debug, Drop, Error)]
pub enum AskRefusal {
    /// A line of the question isn't there, or its range is no range; the text has so many lines.
    #[error("Line")]
    Line { lines: u64 },
    /// A place of the question is behind the end of its line, which has so many characters.
    #[error("Place")]
    Place { length: u64 },
    #[error("Memory")]
    Memory(AllocError),
}

impl<R: LineRuns + Drop> Document<R> {
    /// Opens a text.
    pub fn begin(
        alloc: Global,
        text: Text,
        machine: R,
        brackets: Brackets,
        limits: Limits,
    ) -> Result<Document<R>, AllocError>
        requires some { 1 ≤ limits.tab }
        requires few { limits.tab ≤ MOST_TAB }
        ensures text { IfOk result (λ d. d.text ≡ text) }
        ensures machine { IfOk result (λ d. d.machine ≡ machine) }
        ensures texts { IfOk result (λ d. d.texts ≡ brackets) }
        ensures limits { IfOk result (λ d. d.limits ≡ limits) }
    {
        let work = Work::new(alloc, machine.limits().budget, machine.groups())?;
        Ok(Document {
            text,
            machine,
            work,
            brackets,
            limits,
        })
    }

    /// Replaces the text by what a batch of edits makes of it, and answers how many lines it has then. Refused, it stays
    /// as it was. No line is run.
    pub fn edit(&mut self, alloc: Global, edits: &[Edit]) -> Result<u32, EditRefusal>
        ensures text { OnOk result (self.new.text ≡ edited self.old.text edits.now) }
        ensures lines { IfOk result (λ lines. lines ≡ line_count (edited self.old.text edits.now)) }
        ensures accepted { OnOk result (batch_refusal self.old.text edits.now ≡ None) }
        ensures refused { IfErr result (HasCause (batch_refusal self.old.text edits.now)) }
        ensures machine { self.new.machine ≡ self.old.machine }
        ensures texts { self.new.texts ≡ self.old.texts }
        ensures limits { self.new.limits ≡ self.old.limits }
        ensures unchanged { OnErr result (self.new ≡ self.old) }
    {
        let Edited { text, carry: _ } = self.text.edited(alloc, edits)?;
        self.text = text;
        Ok(self.text.lines())
    }

    /// The answer to a question. The lines are run and the text is paired anew for it, as far as it takes that. What gives
    /// the tokens tells the same afterwards; how many runs it has made may be more. A question that has no answer runs no
    /// line.
    pub fn ask(&mut self, alloc: Global, question: &Question) -> Result<Answer, AskRefusal>
        ensures answer { IfOk result (λ a.
            a ≡ answer_of (settings_by (R.told self.old.machine) self.old.texts self.old.limits) self.old.text question.now) }
        ensures answered { OnOk result (question_refusal self.old.text question.now ≡ None) }
        ensures refused { IfErr result (HasAskCause (question_refusal self.old.text question.now)) }
        ensures unchanged { IfErr result (λ why. is_memory why ≡ false → self.new ≡ self.old) }
        ensures text { self.new.text ≡ self.old.text }
        ensures told { R.told self.new.machine ≡ R.told self.old.machine }
        ensures texts { self.new.texts ≡ self.old.texts }
        ensures limits { self.new.limits ≡ self.old.limits }
    {
        match question_refusal(&self.text, question) {
            Some(QuestionRefusal::Line { lines }) => Err(AskRefusal::Line { lines }),
            Some(QuestionRefusal::Place { length }) => Err(AskRefusal::Place { length }),
            None => self
                .answer::<Brand>(alloc, question, Blank::new(1))
                .map_err(AskRefusal::Memory),
        }
    }

    /// The rows of the text. The lines are run and the text is paired anew for them. What gives the tokens tells the same
    /// afterwards; how many runs it has made may be more.
    pub fn rows(&mut self, alloc: Global) -> Result<Paired, AllocError>
        ensures rows { IfOk result (λ rows.
            rows ≡ rows_of (settings_by (R.told self.old.machine) self.old.texts self.old.limits) self.old.text) }
        ensures levels { IfOk result (λ rows. All (λ row. row.level < length rows) rows) }
        ensures text { self.new.text ≡ self.old.text }
        ensures told { R.told self.new.machine ≡ R.told self.old.machine }
        ensures texts { self.new.texts ≡ self.old.texts }
        ensures limits { self.new.limits ≡ self.old.limits }
    {
        self.paired_on::<Brand>(alloc, Blank::new(1))
    }

    /// The text as edited so far.
    pub fn text(&self) -> &Text
        ensures { result.now ≡ self.now.text }
    {
        &self.text
    }

    /// What gives the tokens of the lines.
    pub fn machine(&self) -> &R
        ensures { result.now ≡ self.now.machine }
    {
        &self.machine
    }
}

impl<R: LineRuns + Drop> Document<R> {
    /// The rows of the text.
    fn paired<L: Ledger>(
        &mut self,
        alloc: Global,
        steps: &mut Steps<L>,
    ) -> Result<Paired, AllocError>
        ensures rows { IfOk result (λ rows.
            rows ≡ rows_of (settings_by (R.told self.old.machine) self.old.texts self.old.limits) self.old.text) }
        ensures text { self.new.text ≡ self.old.text }
        ensures told { R.told self.new.machine ≡ R.told self.old.machine }
        ensures texts { self.new.texts ≡ self.old.texts }
        ensures limits { self.new.limits ≡ self.old.limits }
    {
        let over = Over {
            alloc,
            text: &self.text,
            brackets: &self.brackets,
            limits: self.limits,
        };
        let marks = mark_lines(&over, &mut self.machine, &mut self.work, steps)?;
        Paired::of(alloc, &marks, marks.end(), self.limits.nesting)
    }

    fn paired_on<L: Ledger>(&mut self, alloc: Global, blank: Blank) -> Result<Paired, AllocError>
        requires name { blank.name ≡ L.name }
        requires parts { blank.parts ≡ L.parts }
        requires some { 0 < blank.parts }
        ensures rows { IfOk result (λ rows.
            rows ≡ rows_of (settings_by (R.told self.old.machine) self.old.texts self.old.limits) self.old.text) }
        ensures text { self.new.text ≡ self.old.text }
        ensures told { R.told self.new.machine ≡ R.told self.old.machine }
        ensures texts { self.new.texts ≡ self.old.texts }
        ensures limits { self.new.limits ≡ self.old.limits }
    {
        let mut steps = Steps::<L>::begin(blank);
        self.paired(alloc, &mut steps)
    }

    /// The tokens of line n.
    fn tokens<L: Ledger>(
        &mut self,
        alloc: Global,
        n: u32,
        steps: &mut Steps<L>,
    ) -> Result<TypedTokens, AllocError>
        requires { n < line_count self.old.text }
        ensures tokens { IfOk result (λ typed. typed ≡ tokens_in (slice_index_or
            (tokens_of (settings_by (R.told self.old.machine) self.old.texts self.old.limits) self.old.text) n [])) }
        ensures text { self.new.text ≡ self.old.text }
        ensures told { R.told self.new.machine ≡ R.told self.old.machine }
        ensures texts { self.new.texts ≡ self.old.texts }
        ensures limits { self.new.limits ≡ self.old.limits }
    {
        let over = Over {
            alloc,
            text: &self.text,
            brackets: &self.brackets,
            limits: self.limits,
        };
        let run = run_line(&over, n, &mut self.machine, &mut self.work, steps)?;
        typed_tokens(alloc, run.tokens().as_slice())
    }

    fn answer<L: Ledger>(
        &mut self,
        alloc: Global,
        question: &Question,
        blank: Blank,
    ) -> Result<Answer, AllocError>
        requires answered { question_refusal self.old.text question.now ≡ None }
        requires name { blank.name ≡ L.name }
        requires parts { blank.parts ≡ L.parts }
        requires some { 0 < blank.parts }
        ensures answer { IfOk result (λ a.
            a ≡ answer_of (settings_by (R.told self.old.machine) self.old.texts self.old.limits) self.old.text question.now) }
        ensures text { self.new.text ≡ self.old.text }
        ensures told { R.told self.new.machine ≡ R.told self.old.machine }
        ensures texts { self.new.texts ≡ self.old.texts }
        ensures limits { self.new.limits ≡ self.old.limits }
    {
        let mut steps = Steps::<L>::begin(blank);
        match *question {
            Question::Line { line } => Ok(Answer::Line(line_chars(alloc, &self.text, line)?)),
            Question::Tokens { line } => Ok(Answer::Tokens(self.tokens(alloc, line, &mut steps)?)),
            _ => {
                let rows = self.paired(alloc, &mut steps)?;
                answer_of_rows(alloc, rows.rows(), &self.text, self.limits.tab, question)
            }
        }
    }
}
