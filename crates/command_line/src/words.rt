//! What the words of a command line ask for: a text, names of files, and limits.

ghost use Rattle.std.specs.Prelude.{◌≡◌, ◌≤◌, ℕ, map, drop, option_map, string_bytes, Some, None, IfOk, IfSome, false, if◌then◌else◌};
ghost use Rattle.session_defs.specs.Words.{asked_for, request_of, request_with, is_digit, is_number, is_name_or_none, is_within, limits_in, no_options, number_or, said, subject_of, value_of};
ghost use Rattle.clap.specs.Words.{app_of, rule_of};
ghost use Rattle.command_line.specs.Command.{name_rule, option_rule, options_of, words_app};
ghost use Rattle.command_line.specs.Subjects.{IsInRange, subject_in};

use clap::error::ErrorKind;
use clap::{Arg, ArgAction, ArgMatches, Command};
use generator_defs::MOST_GENERATED_LINES;
use session_defs::{
    LEAST_BUDGET, LEAST_LONG, LEAST_NESTING, LEAST_TAB, MOST_BUDGET, MOST_DIGITS, MOST_LONG,
    MOST_NESTING, USUAL_BUDGET, USUAL_LONG, USUAL_NESTING, USUAL_TAB, WIDEST_TAB,
};
use std::alloc::{AllocError, Global};
use std::marker::Model;
use text_pos::Limits;

/// Whose brackets are asked for.
#[derive(Clone, Copy)]
pub enum Subject<'a> {
    /// Those of the text file of this name, by a script.
    TextFile(&'a str),
    /// Those of a text of so many lines that is made.
    Generated(u32),
}

/// What the words ask for: a text, the names of the other files, and limits.
#[derive(Drop)]
pub struct Request<'a> {
    pub subject: Subject<'a>,
    pub grammar: Option<&'a str>,
    pub brackets: Option<&'a str>,
    pub limits: Limits,
}

impl<'a> Model for Request<'a> {
    ghost use Rattle.std.specs.Prelude.{option_map};
    ghost use Rattle.session_defs.specs.Words.{Request as Asked};
    ghost use Rattle.command_line.specs.Subjects.{subject_in};

    ghost Value = { Asked };

    ghost view = { λ r. record {
      subject = subject_in r.subject;
      grammar = option_map (λ name. name.now) r.grammar;
      brackets = option_map (λ name. name.now) r.brackets;
      limits = r.limits;
    } };
}

/// The name of the text and the values of the options, as far as they are there.
#[derive(Drop)]
struct Options<'a> {
    text: Option<&'a str>,
    grammar: Option<&'a str>,
    brackets: Option<&'a str>,
    nesting: Option<&'a str>,
    steps: Option<&'a str>,
    long: Option<&'a str>,
    tab: Option<&'a str>,
    make: Option<&'a str>,
}

impl<'a> Model for Options<'a> {
    ghost use Rattle.std.specs.Prelude.{option_map};
    ghost use Rattle.session_defs.specs.Words.{Options as Given};

    ghost Value = { Given };

    ghost view = { λ o. record {
      text = option_map (λ value. value.now) o.text;
      grammar = option_map (λ value. value.now) o.grammar;
      brackets = option_map (λ value. value.now) o.brackets;
      nesting = option_map (λ value. value.now) o.nesting;
      steps = option_map (λ value. value.now) o.steps;
      long = option_map (λ value. value.now) o.long;
      tab = option_map (λ value. value.now) o.tab;
      make = option_map (λ value. value.now) o.make;
    } };
}

/// What the words ask for, of which the first is the program's name; None where they are no command line. Its numbers are
/// in their ranges. Reading the words takes memory.
pub fn read_words(alloc: Global, words: &[String]) -> Result<Option<Request<'_>>, AllocError>
    ensures request { IfOk result (λ asked. asked ≡ request_of (map string_bytes words.now)) }
    ensures some_columns { IfOk result (λ asked. IfSome asked (λ r. LEAST_TAB ≤ r.limits.tab)) }
    ensures few_columns { IfOk result (λ asked. IfSome asked (λ r. r.limits.tab ≤ WIDEST_TAB)) }
    ensures in_range { IfOk result (λ asked. IfSome asked (λ r. IsInRange r.subject)) }
{
    request_of(alloc, words)
}

fn request_of(alloc: Global, words: &[String]) -> Result<Option<Request<'_>>, AllocError>
    ensures { IfOk result (λ asked. asked ≡ request_of (map string_bytes words.now)) }
{
    match said(alloc, words)? {
        Some(given) => Ok(asked_for(given)),
        None => Ok(None),
    }
}

/// What the words behind the program's name say, one after the other.
fn said(alloc: Global, words: &[String]) -> Result<Option<Options<'_>>, AllocError>
    ensures { IfOk result (λ given. given ≡ said no_options (drop 1 (map string_bytes words.now))) }
{
    let command = words_command(alloc)?;
    match command.try_get_matches_from(words) {
        Ok(matches) => Ok(Some(options_of(&matches))),
        Err(error) => match error.kind() {
            ErrorKind::OutOfMemory => Err(AllocError),
            _ => Ok(None),
        },
    }
}

/// The command: a name and seven options.
fn words_command<'a>(alloc: Global) -> Result<Command<'a>, AllocError>
    ensures { IfOk result (λ command. app_of command ≡ words_app) }
{
    Command::new(alloc, "bracket_program")
        .disable_help_flag(true)
        .arg(name_arg(alloc))?
        .arg(option_arg(alloc, "grammar"))?
        .arg(option_arg(alloc, "brackets"))?
        .arg(option_arg(alloc, "nesting"))?
        .arg(option_arg(alloc, "steps"))?
        .arg(option_arg(alloc, "long"))?
        .arg(option_arg(alloc, "tab"))?
        .arg(option_arg(alloc, "make"))
}

/// The name of the text.
fn name_arg<'a>(alloc: Global) -> Arg<'a>
    ensures rule { rule_of result ≡ name_rule }
    ensures own { result.global ≡ false }
{
    Arg::new(alloc, "text").action(ArgAction::Set)
}

/// An option that has one value.
fn option_arg<'a>(alloc: Global, name: &'a str) -> Arg<'a>
    ensures rule { rule_of result ≡ option_rule name.entry.now }
    ensures own { result.global ≡ false }
{
    Arg::new(alloc, name).long(name).action(ArgAction::Set)
}

/// The values that were found.
fn options_of<'a>(matches: &ArgMatches<'a>) -> Options<'a>
    ensures { result ≡ options_of matches.now }
{
    Options {
        text: matches.get_str("text"),
        grammar: matches.get_str("grammar"),
        brackets: matches.get_str("brackets"),
        nesting: matches.get_str("nesting"),
        steps: matches.get_str("steps"),
        long: matches.get_str("long"),
        tab: matches.get_str("tab"),
        make: matches.get_str("make"),
    }
}

fn asked_for(given: Options<'_>) -> Option<Request<'_>>
    ensures { result ≡ asked_for given.entry }
{
    let subject = subject_of(given.text, given.make)?;
    request_with(subject, given)
}

/// The text of a file, or one that is made. A file that is named beside that is named in vain.
fn subject_of<'a>(name: Option<&'a str>, lines: Option<&str>) -> Option<Subject<'a>>
    ensures { option_map subject_in result ≡ subject_of (option_map (λ n. n.now) name.entry) (option_map (λ n. n.now) lines.entry) }
{
    match (name, lines) {
        (None, None) => None,
        (None, Some(lines)) => generated_of(lines),
        (Some(name), None) => file_of(name),
        (Some(name), Some(lines)) => generated_beside(name, lines),
    }
}

/// The text of a file, whose name isn't empty.
fn file_of(name: &str) -> Option<Subject<'_>>
    ensures { option_map subject_in result ≡ subject_of (Some name.now) None }
{
    if name.is_empty() {
        None
    } else {
        Some(Subject::TextFile(name))
    }
}

/// A text that is made, beside the name of a file, which isn't empty and isn't opened.
fn generated_beside<'a>(name: &str, lines: &str) -> Option<Subject<'a>>
    ensures { option_map subject_in result ≡ subject_of (Some name.now) (Some lines.now) }
{
    if name.is_empty() {
        None
    } else {
        generated_of(lines)
    }
}

/// A text that is made, of a number of lines.
fn generated_of<'a>(lines: &str) -> Option<Subject<'a>>
    ensures { option_map subject_in result ≡ subject_of None (Some lines.now) }
{
    let lines = number_within(1, MOST_GENERATED_LINES, lines)?;
    Some(Subject::Generated(lines))
}

/// What the options ask for, of this text.
fn request_with<'a>(subject: Subject<'a>, given: Options<'a>) -> Option<Request<'a>>
    ensures { result ≡ request_with (subject_in subject.entry) given.entry }
{
    if !is_name_or_none(given.grammar) || !is_name_or_none(given.brackets) {
        return None;
    }
    Some(Request {
        subject,
        grammar: given.grammar,
        brackets: given.brackets,
        limits: limits_in(given)?,
    })
}

fn limits_in(given: Options<'_>) -> Option<Limits>
    ensures { result ≡ limits_in given.entry }
{
    let nesting = number_or(USUAL_NESTING, LEAST_NESTING, MOST_NESTING, given.nesting)?;
    let budget = number_or(USUAL_BUDGET, LEAST_BUDGET, MOST_BUDGET, given.steps)?;
    let long = number_or(USUAL_LONG, LEAST_LONG, MOST_LONG, given.long)?;
    let tab = number_or(USUAL_TAB, LEAST_TAB, WIDEST_TAB, given.tab)?;
    Some(Limits {
        nesting,
        budget,
        long,
        tab,
    })
}

/// No name is empty.
fn is_name_or_none(word: Option<&str>) -> bool
    ensures { result ≡ is_name_or_none (option_map (λ w. w.now) word.entry) }
{
    match word {
        None => true,
        Some(name) => !name.is_empty(),
    }
}

/// A number from `least` to `most`, or the usual one where there is no word.
fn number_or(usual: u32, least: u32, most: u32, word: Option<&str>) -> Option<u32>
    ensures { result ≡ number_or usual least most (option_map (λ w. w.now) word.entry) }
{
    match word {
        None => Some(usual),
        Some(digits) => number_within(least, most, digits),
    }
}

fn number_within(least: u32, most: u32, word: &str) -> Option<u32>
    ensures { result ≡ (if is_within least most word.now then Some (value_of word.now) else None) }
{
    let value = number_in(word.as_bytes())?;
    if u64::from(least) <= value && value <= u64::from(most) {
        Some(value as u32)
    } else {
        None
    }
}

/// One to ten ASCII digits, as a number.
fn number_in(word: &[u8]) -> Option<u64>
    ensures { result ≡ (if is_number word.now then Some (value_of word.now) else None) }
{
    if word.is_empty() || word.len() > MOST_DIGITS {
        return None;
    }
    let mut value: u64 = 0;
    for c in word {
        if !is_digit(*c) {
            return None;
        }
        value = 10 * value + u64::from(*c - b'0');
    }
    Some(value)
}

fn is_digit(c: u8) -> bool
    ensures { result ≡ is_digit c }
{
    48 <= c && c <= 57
}
