//! Steps of a test over a document: questions with wanted answers, and edits accepted or refused.

use crate::shown::{asked, insert};
use answer_defs::Question;
use bracket_lex::Brackets;
use document::Document;
use line_runs::{Limits, LineRuns};
use line_text::Text;
use std::alloc::{AllocError, Global};
use text_pos::Pos;

pub(crate) const LIMITS: Limits = Limits {
    nesting: 200,
    budget: 1000,
    long: 20_000,
    tab: 4,
};

/// What is done with a document, and what is wanted.
#[derive(Clone, Copy)]
pub(crate) enum Step<'a> {
    /// A question has this answer.
    Asked(Question, &'a str),
    /// A text is put in at a place.
    Inserted(Pos, &'a str),
    /// A text can't be put in at a place.
    Refused(Pos, &'a str),
}

/// Whether a step goes as it is wanted.
fn goes<R: LineRuns + Drop>(
    alloc: Global,
    document: &mut Document<R>,
    step: Step<'_>,
) -> Result<bool, AllocError> {
    match step {
        Step::Asked(question, wanted) => {
            let found = asked(alloc, document, question)?;
            Ok(found.as_str() == wanted)
        }
        Step::Inserted(at, text) => insert(alloc, document, at, text),
        Step::Refused(at, text) => {
            let lines = document.text().lines();
            let accepted = insert(alloc, document, at, text)?;
            Ok(!accepted && document.text().lines() == lines)
        }
    }
}

fn opened<R: LineRuns + Drop>(
    alloc: Global,
    machine: R,
    brackets: Brackets,
    text: &[u8],
) -> Result<Document<R>, AllocError> {
    match Text::from_bytes(alloc, text) {
        Ok(text) => Document::begin(alloc, text, machine, brackets, LIMITS),
        Err(_) => Err(AllocError),
    }
}

/// Whether all steps go as they are wanted, over a text.
pub(crate) fn all_go<R: LineRuns + Drop>(
    alloc: Global,
    machine: R,
    brackets: Brackets,
    text: &[u8],
    steps: &[Step<'_>],
) -> Result<bool, AllocError> {
    let mut document = opened(alloc, machine, brackets, text)?;
    for step in steps {
        if !goes(alloc, &mut document, *step)? {
            return Ok(false);
        }
    }
    Ok(document.machine().limits() == LIMITS)
}
