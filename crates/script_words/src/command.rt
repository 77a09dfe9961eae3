//! Reads a script line as a command: edits, a question, or a turn in the background.

ghost use Rattle.std.specs.Prelude.{◌≡◌, IfOk, IsErrOf, option_map, Some, None};
ghost use Rattle.std.specs.Str.{chars};
ghost use Rattle.serde_json.specs.View.{view, items_view};
ghost use Rattle.script_words.specs.declared.refusal.Refusal.TheVariants as refusal;
ghost use Rattle.script_words.specs.Script.{both, meaning_of, json_of, refused, command, command_in, member_command, numbers_command, pair_question, place_question, only_member, number_in, pair_in, turn_of, edit_in, edits_in, edits_of_items};

use answer_defs::Question;
use line_text::{Edit, Edits};
use serde_json::Value;
use std::alloc::{AllocError, Global};
use std::str;
use text_defs::MOST_LINES;
use text_pos::{Pos, Span};
use thiserror::Error;

/// What a script line asks for. The commands are this project's own.
#[derive(Debug, Drop)]
pub enum Command {
    /// These edits are made, all at once.
    Edit(Edits),
    /// So many lines may be done in the background.
    Turn(u32),
    Ask(Question),
}

/// Why a line is no command.
#[derive(Debug, Drop, Error)]
pub enum CommandRefusal {
    /// The line isn't UTF-8, or no JSON text, or nests deeper than 127.
    #[error("Json")]
    Json,
    /// The JSON text is no command.
    #[error("Command")]
    Command,
    #[error("Memory")]
    Memory(AllocError),
}

impl Command {
    /// Reads a script line, which is given without its LF.
    pub fn read(alloc: Global, line: &[u8]) -> Result<Command, CommandRefusal>
        ensures ok { IfOk result (λ c. meaning_of line.now ≡ command c) }
        ensures json { IsErrOf result CommandRefusal.Json → meaning_of line.now ≡ refused refusal.Json }
        ensures not_command { IsErrOf result CommandRefusal.Command → meaning_of line.now ≡ refused refusal.Command }
    {
        let value = read_json(alloc, line)?;
        match command_in(alloc, &value).map_err(CommandRefusal::Memory)? {
            Some(found) => Ok(found),
            None => Err(CommandRefusal::Command),
        }
    }
}

fn read_json(alloc: Global, line: &[u8]) -> Result<Value, CommandRefusal>
    ensures ok { IfOk result (λ v. json_of line.now ≡ Some (view v)) }
    ensures json { IsErrOf result CommandRefusal.Json → json_of line.now ≡ None }
    ensures never { ¬ (IsErrOf result CommandRefusal.Command) }
{
    let Ok(text) = str::from_utf8(line) else {
        return Err(CommandRefusal::Json);
    };
    match Value::from_str(alloc, text) {
        Ok(value) => Ok(value),
        Err(error) => {
            if error.is_memory() {
                Err(CommandRefusal::Memory(AllocError))
            } else {
                Err(CommandRefusal::Json)
            }
        }
    }
}

/// The command that a JSON value is.
fn command_in(alloc: Global, value: &Value) -> Result<Option<Command>, AllocError>
    ensures { IfOk result (λ c. c ≡ command_in (view value.now)) }
{
    match only_member(value) {
        Some((key, member)) => member_command(alloc, key, member),
        None => Ok(None),
    }
}

fn member_command(alloc: Global, key: &str, member: &Value) -> Result<Option<Command>, AllocError>
    ensures { IfOk result (λ c. c ≡ member_command key.now (view member.now)) }
{
    if key == "edit" {
        match edits_in(alloc, member)? {
            Some(edits) => Ok(Some(Command::Edit(edits))),
            None => Ok(None),
        }
    } else {
        Ok(numbers_command(key, member))
    }
}

/// A question, or a turn.
fn numbers_command(key: &str, member: &Value) -> Option<Command>
    ensures { result ≡ numbers_command key.now (view member.now) }
{
    if key == "line" {
        let line = number_in(member)?;
        Some(Command::Ask(Question::Line { line }))
    } else if key == "tokens" {
        let line = number_in(member)?;
        Some(Command::Ask(Question::Tokens { line }))
    } else if key == "turn" {
        turn_of(number_in(member)?)
    } else {
        let (first, second) = pair_in(member)?;
        Some(Command::Ask(pair_question(key, first, second)?))
    }
}

/// A question with two numbers: a range of lines, or the line and the column of a place.
fn pair_question(key: &str, first: u32, second: u32) -> Option<Question>
    ensures { result ≡ pair_question key.now (first, second) }
{
    if key == "brackets" {
        Some(Question::Brackets {
            from: first,
            to: second,
        })
    } else if key == "pairs" {
        Some(Question::Pairs {
            from: first,
            to: second,
        })
    } else if key == "guides" {
        Some(Question::Guides {
            from: first,
            to: second,
        })
    } else {
        place_question(
            key,
            Pos {
                line: first,
                col: second,
            },
        )
    }
}

fn place_question(key: &str, at: Pos) -> Option<Question>
    ensures { result ≡ place_question key.now at }
{
    if key == "match" {
        Some(Question::Match { at })
    } else if key == "around" {
        Some(Question::Around { at })
    } else if key == "jump" {
        Some(Question::Jump { at })
    } else if key == "level" {
        Some(Question::Level { at })
    } else {
        None
    }
}

/// A turn, of at most as many lines as a text may have.
fn turn_of(lines: u32) -> Option<Command>
    ensures { result ≡ turn_of lines }
{
    if 0 < lines && u64::from(lines) <= MOST_LINES {
        Some(Command::Turn(lines))
    } else {
        None
    }
}

/// The key and the value of an object that has one member.
fn only_member(value: &Value) -> Option<(&str, &Value)>
    ensures { option_map (λ m. (m.0.now, view m.1.now)) result ≡ only_member (view value.now) }
{
    let members = value.as_object()?;
    if members.len() != 1 {
        return None;
    }
    let (key, member) = members.first_key_value()?;
    Some((key.as_str(), member))
}

/// The two numbers of a list of two.
fn pair_in(value: &Value) -> Option<(u32, u32)>
    ensures { result ≡ pair_in (view value.now) }
{
    match value.as_array()?.as_slice() {
        [first, second] => Some((number_in(first)?, number_in(second)?)),
        _ => None,
    }
}

/// The edits of a list.
fn edits_in(alloc: Global, value: &Value) -> Result<Option<Edits>, AllocError>
    ensures { IfOk result (λ es. es ≡ edits_in (view value.now)) }
{
    match value.as_array() {
        Some(items) => edits_of(alloc, items.as_slice()),
        None => Ok(None),
    }
}

fn edits_of(alloc: Global, items: &[Value]) -> Result<Option<Edits>, AllocError>
    ensures { IfOk result (λ es. es ≡ edits_of_items (items_view items.now)) }
{
    let mut edits = Edits::new(alloc);
    for item in items {
        match edit_in(alloc, item)? {
            Some(edit) => edits.push(edit)?,
            None => return Ok(None),
        }
    }
    Ok(Some(edits))
}

fn edit_in(alloc: Global, value: &Value) -> Result<Option<Edit>, AllocError>
    ensures { IfOk result (λ e. e ≡ edit_in (view value.now)) }
{
    match edit_parts(value) {
        Some((span, text)) => Ok(Some(Edit::new(alloc, span, text)?)),
        None => Ok(None),
    }
}

/// The span and the text of an edit: a list of four numbers and a string.
#[tactic(auto, using(crate::proofs::DataLemmas::no_short_edit, crate::proofs::DataLemmas::no_long_edit))]
fn edit_parts(value: &Value) -> Option<(Span, &str)>
    ensures { option_map (λ e. record { span = e.0; text = chars e.1.now }) result ≡ edit_in (view value.now) }
{
    match value.as_array()?.as_slice() {
        [from_line, from_col, to_line, to_col, text] => {
            let from = pos_of(from_line, from_col)?;
            let to = pos_of(to_line, to_col)?;
            Some((Span { from, to }, text.as_str()?))
        }
        _ => None,
    }
}

fn pos_of(line: &Value, col: &Value) -> Option<Pos>
    ensures { option_map (λ p. (p.line, p.col)) result ≡ both (number_in (view line.now)) (number_in (view col.now)) }
{
    Some(Pos {
        line: number_in(line)?,
        col: number_in(col)?,
    })
}

/// A whole number of 32 bits.
fn number_in(value: &Value) -> Option<u32>
    ensures { result ≡ number_in (view value.now) }
{
    let number = value.as_u64()?;
    if number <= u64::from(u32::MAX) {
        Some(number as u32)
    } else {
        None
    }
}
