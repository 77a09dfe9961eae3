//! Answers and refusals of a document shown as texts, for tests.

use answer_defs::{Answer, BracketRow, Question, Twin, TypedToken};
use document::{AskRefusal, Document};
use line_runs::LineRuns;
use line_text::{Edit, EditRefusal};
use std::alloc::{AllocError, Global};
use text_pos::{Pos, Span};

/// Brackets with their levels.
fn rows_text(alloc: Global, rows: &[BracketRow]) -> Result<String, AllocError> {
    let mut out = String::new(alloc);
    for row in rows {
        let at = row.at;
        let text = format!(in alloc; "{}:{}-{} {};", at.line, at.from, at.to, row.level)?;
        out.push_str(text.as_str())?;
    }
    Ok(out)
}

/// A token with the number of its type and its scopes.
fn push_token(alloc: Global, out: &mut String, token: &TypedToken) -> Result<(), AllocError> {
    let text = format!(in alloc; "{}-{} {}", token.from, token.to, token.kind)?;
    out.push_str(text.as_str())?;
    for n in 0..token.scopes.len() {
        out.push(' ')?;
        out.push_str(token.scopes.name(n))?;
    }
    out.push(';')?;
    Ok(())
}

fn tokens_text(alloc: Global, tokens: &[TypedToken]) -> Result<String, AllocError> {
    let mut out = String::new(alloc);
    for token in tokens {
        push_token(alloc, &mut out, token)?;
    }
    Ok(out)
}

fn chars_text(alloc: Global, chars: &[char]) -> Result<String, AllocError> {
    let mut out = String::new(alloc);
    for c in chars {
        out.push(*c)?;
    }
    Ok(out)
}

/// Where two partners begin.
fn twin_text(alloc: Global, twin: Option<Twin>) -> Result<String, AllocError> {
    match twin {
        None => String::from_str(alloc, "null"),
        Some(twin) => {
            let (first, second) = (twin.first.from, twin.second.from);
            format!(in alloc;
                "{}:{} {}:{}",
                first.line, first.col, second.line, second.col
            )
        }
    }
}

fn place_text(alloc: Global, at: Option<Pos>) -> Result<String, AllocError> {
    match at {
        None => String::from_str(alloc, "null"),
        Some(at) => format!(in alloc; "{}:{}", at.line, at.col),
    }
}

fn answer_text(alloc: Global, answer: &Answer) -> Result<String, AllocError> {
    match answer {
        Answer::Brackets(rows) => rows_text(alloc, rows.as_slice()),
        Answer::Tokens(tokens) => tokens_text(alloc, tokens.as_slice()),
        Answer::Line(chars) => chars_text(alloc, chars.as_slice()),
        Answer::Level(level) => format!(in alloc; "level {}", *level),
        Answer::Pairs(pairs) => format!(in alloc; "{} pairs", pairs.as_slice().len()),
        Answer::Guides(guides) => format!(in alloc; "{} guides", guides.as_slice().len()),
        Answer::Match(twin) | Answer::Around(twin) => twin_text(alloc, *twin),
        Answer::Jump(at) => place_text(alloc, *at),
    }
}

/// The answer to a question, or its refusal, as a text.
pub(crate) fn asked<R: LineRuns + Drop>(
    alloc: Global,
    document: &mut Document<R>,
    question: Question,
) -> Result<String, AllocError> {
    match document.ask(alloc, &question) {
        Ok(answer) => answer_text(alloc, &answer),
        Err(AskRefusal::Line { lines }) => format!(in alloc; "line {}", lines),
        Err(AskRefusal::Place { length }) => format!(in alloc; "place {}", length),
        Err(AskRefusal::Memory(_)) => Err(AllocError),
    }
}

/// Puts a text in at a place. Whether that was accepted.
pub(crate) fn insert<R: LineRuns + Drop>(
    alloc: Global,
    document: &mut Document<R>,
    at: Pos,
    text: &str,
) -> Result<bool, AllocError> {
    let mut edits = Vec::new(alloc);
    edits.push(Edit::new(alloc, Span { from: at, to: at }, text)?)?;
    match document.edit(alloc, &edits) {
        Ok(_) => Ok(true),
        Err(EditRefusal::Memory(_)) => Err(AllocError),
        Err(_) => Ok(false),
    }
}
