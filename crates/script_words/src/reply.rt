//! Writes the line of a reply to a script line, as JSON.

ghost use Rattle.std.specs.Prelude.{◌≡◌, map, IfOk, encode_utf8_all};
ghost use Rattle.serde_json.specs.Data.{array, string, boolean, object, member, no_members};
ghost use Rattle.serde_json.specs.View.{view, items_of};
ghost use Rattle.script_words.specs.ReplyText.{answer_data, chars_data, guide_data, guides_data, made_data, mark_data, or_null, pair_data, pairs_data, place_data, reply_data, reply_text, row_data, rows_data, scopes_data, span_data, token_data, tokens_data, twin_data, word_of};

use crate::refusal::Refusal;
use answer_defs::{Answer, BracketRow, GuideRow, MarkAt, PairRow, Twin, TypedToken};
use generator_defs::Made;
use scope_names::Scopes;
use serde_json::{Value, json};
use std::alloc::{AllocError, Global};
use text_pos::{Bytes, Pos, Span};

/// What is written for a script line and before the first, and of a text in passing. The replies are this project's own.
#[derive(Drop)]
pub enum Reply {
    /// How many lines the text has, and how many patterns of the grammar and keys of its injections weren't read.
    Opened { lines: u32, unread: u32 },
    /// How many lines the text has now.
    Edited(u32),
    Turned,
    Refused(Refusal),
    Answered(Answer),
    /// What is told of a generated text.
    Made(Made),
}

impl Reply {
    /// The reply's line, with its LF.
    pub fn write(&self, alloc: Global) -> Result<Bytes, AllocError>
        ensures { IfOk result (λ line. line ≡ reply_text self.now) }
    {
        let mut line = self.value(alloc)?.to_string(alloc)?;
        line.push('\n')?;
        let bytes = Bytes::of(alloc, line.as_bytes())?;
        Ok(bytes)
    }

    fn value(&self, alloc: Global) -> Result<Value, AllocError>
        ensures { IfOk result (λ v. view v ≡ reply_data self.now) }
    {
        match self {
            Reply::Opened { lines, unread } => {
                json!(in alloc; {"opened": *lines, "unread": *unread})
            }
            Reply::Edited(lines) => json!(in alloc; {"edited": *lines}),
            Reply::Turned => json!(in alloc; {"turned": true}),
            Reply::Refused(why) => json!(in alloc; {"refused": word_of(*why)}),
            Reply::Answered(answer) => answer_value(alloc, answer),
            Reply::Made(made) => {
                let numbers = made_value(alloc, made)?;
                json!(in alloc; {"made": numbers})
            }
        }
    }
}

/// The word of a refusal.
fn word_of(why: Refusal) -> &'static str
    ensures { result.now ≡ word_of why }
{
    match why {
        Refusal::Long => "long",
        Refusal::Json => "json",
        Refusal::Command => "command",
        Refusal::Range => "range",
        Refusal::Order => "order",
        Refusal::Chars => "chars",
        Refusal::Lines => "lines",
        Refusal::Line => "line",
        Refusal::Place => "place",
    }
}

fn made_value(alloc: Global, made: &Made) -> Result<Value, AllocError>
    ensures { IfOk result (λ v. view v ≡ made_data made.now) }
{
    json!(in alloc; [made.lines, made.rows, made.bad, made.deepest])
}

fn answer_value(alloc: Global, answer: &Answer) -> Result<Value, AllocError>
    ensures { IfOk result (λ v. view v ≡ answer_data answer.now) }
{
    match answer {
        Answer::Brackets(rows) => {
            let list = rows_value(alloc, rows.as_slice())?;
            json!(in alloc; {"brackets": list})
        }
        Answer::Pairs(pairs) => {
            let list = pairs_value(alloc, pairs.as_slice())?;
            json!(in alloc; {"pairs": list})
        }
        Answer::Guides(guides) => {
            let list = guides_value(alloc, guides.as_slice())?;
            json!(in alloc; {"guides": list})
        }
        Answer::Tokens(tokens) => {
            let list = tokens_value(alloc, tokens.as_slice())?;
            json!(in alloc; {"tokens": list})
        }
        Answer::Line(chars) => {
            let text = text_value(alloc, chars.as_slice())?;
            json!(in alloc; {"line": text})
        }
        Answer::Match(twin) => {
            let both = twin_or_null(alloc, twin)?;
            json!(in alloc; {"match": both})
        }
        Answer::Around(twin) => {
            let both = twin_or_null(alloc, twin)?;
            json!(in alloc; {"around": both})
        }
        Answer::Jump(place) => {
            let place = place_or_null(alloc, place)?;
            json!(in alloc; {"jump": place})
        }
        Answer::Level(level) => json!(in alloc; {"level": *level}),
    }
}

fn rows_value(alloc: Global, rows: &[BracketRow]) -> Result<Value, AllocError>
    ensures { IfOk result (λ v. view v ≡ rows_data rows.now) }
{
    let mut list = Vec::new(alloc);
    for row in rows {
        list.push(row_value(alloc, row)?)?;
    }
    Ok(Value::Array(list))
}

fn row_value(alloc: Global, row: &BracketRow) -> Result<Value, AllocError>
    ensures { IfOk result (λ v. view v ≡ row_data row.now) }
{
    let at = row.at;
    json!(in alloc; [at.line, at.from, at.to, row.level, row.own, row.colour])
}

fn text_value(alloc: Global, chars: &[char]) -> Result<Value, AllocError>
    ensures { IfOk result (λ v. view v ≡ chars_data chars.now) }
{
    let mut text = String::new(alloc);
    for c in chars {
        text.push(*c)?;
    }
    Ok(Value::String(text))
}

fn pairs_value(alloc: Global, pairs: &[PairRow]) -> Result<Value, AllocError>
    ensures { IfOk result (λ v. view v ≡ pairs_data pairs.now) }
{
    let mut list = Vec::new(alloc);
    for pair in pairs {
        list.push(pair_value(alloc, pair)?)?;
    }
    Ok(Value::Array(list))
}

fn pair_value(alloc: Global, pair: &PairRow) -> Result<Value, AllocError>
    ensures { IfOk result (λ v. view v ≡ pair_data pair.now) }
{
    let opener = mark_value(alloc, &pair.opener)?;
    let closer = mark_or_null(alloc, &pair.closer)?;
    json!(in alloc; [opener, closer, pair.level, pair.own])
}

fn mark_or_null(alloc: Global, mark: &Option<MarkAt>) -> Result<Value, AllocError>
    ensures { IfOk result (λ v. view v ≡ or_null mark_data mark.now) }
{
    match mark {
        Some(mark) => mark_value(alloc, mark),
        None => Ok(Value::Null),
    }
}

fn mark_value(alloc: Global, mark: &MarkAt) -> Result<Value, AllocError>
    ensures { IfOk result (λ v. view v ≡ mark_data mark.now) }
{
    json!(in alloc; [mark.line, mark.from, mark.to])
}

fn guides_value(alloc: Global, guides: &[GuideRow]) -> Result<Value, AllocError>
    ensures { IfOk result (λ v. view v ≡ guides_data guides.now) }
{
    let mut list = Vec::new(alloc);
    for guide in guides {
        list.push(guide_value(alloc, guide)?)?;
    }
    Ok(Value::Array(list))
}

fn guide_value(alloc: Global, guide: &GuideRow) -> Result<Value, AllocError>
    ensures { IfOk result (λ v. view v ≡ guide_data guide.now) }
{
    json!(in alloc; [guide.line, guide.column, guide.level])
}

fn tokens_value(alloc: Global, tokens: &[TypedToken]) -> Result<Value, AllocError>
    ensures { IfOk result (λ v. view v ≡ tokens_data tokens.now) }
{
    let mut list = Vec::new(alloc);
    for token in tokens {
        list.push(token_value(alloc, token)?)?;
    }
    Ok(Value::Array(list))
}

fn token_value(alloc: Global, token: &TypedToken) -> Result<Value, AllocError>
    ensures { IfOk result (λ v. view v ≡ token_data token.now) }
{
    let scopes = scopes_value(alloc, &token.scopes)?;
    json!(in alloc; [token.from, token.to, scopes, token.kind])
}

/// The names of scopes. Each is reached from the one behind it, so the list is made from its end.
fn scopes_value(alloc: Global, scopes: &Scopes) -> Result<Value, AllocError>
    ensures { IfOk result (λ v. view v ≡ scopes_data scopes.now) }
{
    let mut list = Vec::new(alloc);
    for name in scopes.names_back() {
        list.push(Value::String(String::from_str(alloc, name)?))?;
    }
    list.reverse();
    Ok(Value::Array(list))
}

fn twin_or_null(alloc: Global, twin: &Option<Twin>) -> Result<Value, AllocError>
    ensures { IfOk result (λ v. view v ≡ or_null twin_data twin.now) }
{
    match twin {
        Some(twin) => twin_value(alloc, twin),
        None => Ok(Value::Null),
    }
}

fn twin_value(alloc: Global, twin: &Twin) -> Result<Value, AllocError>
    ensures { IfOk result (λ v. view v ≡ twin_data twin.now) }
{
    let first = span_value(alloc, &twin.first)?;
    let second = span_value(alloc, &twin.second)?;
    json!(in alloc; [first, second])
}

fn span_value(alloc: Global, span: &Span) -> Result<Value, AllocError>
    ensures { IfOk result (λ v. view v ≡ span_data span.now) }
{
    let from = span.from;
    let to = span.to;
    json!(in alloc; [from.line, from.col, to.col])
}

fn place_or_null(alloc: Global, place: &Option<Pos>) -> Result<Value, AllocError>
    ensures { IfOk result (λ v. view v ≡ or_null place_data place.now) }
{
    match place {
        Some(place) => json!(in alloc; [place.line, place.col]),
        None => Ok(Value::Null),
    }
}
