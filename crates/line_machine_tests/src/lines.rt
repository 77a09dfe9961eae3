ghost use Rattle.std.specs.Prelude.{◌≡◌, ◌<◌};
ghost use Rattle.line_machine.specs.Machines.{groups_of};

use crate::rows::{Row, has_root, table};
use line_machine::Machine;
use line_runs::{Limits, LineRuns, LineTokens};
use line_text::Text;
use onig_match::Work;
use scope_defs::StdType;
use std::alloc::{AllocError, Global};
use std::marker::Brand;
use std::sync::ledger::{Blank, Ledger};
use step_count::Steps;
use text_defs::MOST_CHARS;

/// How a line is written.
#[derive(Clone, Copy)]
pub(crate) enum Form {
    /// Its tokens, each with its scopes, `!` where an attempt was spent, and how many rules are open.
    Short,
    /// A list of rows, each of a token's start, its end, its scopes and its type, and a line feed.
    Rows,
}

fn write_line(alloc: Global, out: &mut String, line: &LineTokens) -> Result<(), AllocError> {
    for token in line.tokens().as_slice() {
        out.push_str(format!(in alloc; "{}-{}", token.from, token.to)?.as_str())?;
        for n in 0..token.scopes.len() {
            out.push(' ')?;
            out.push_str(token.scopes.name(n))?;
        }
        out.push(';')?;
    }
    if line.stopped() {
        out.push('!')?;
    }
    out.push_str(format!(in alloc; "{}/", line.end().stack().depth())?.as_str())
}

fn type_number(kind: StdType) -> u32 {
    match kind {
        StdType::Other => 0,
        StdType::Comment => 1,
        StdType::Text => 2,
        StdType::RegEx => 3,
    }
}

fn write_rows(alloc: Global, out: &mut String, line: &LineTokens) -> Result<(), AllocError> {
    let mut before = "[";
    for token in line.tokens().as_slice() {
        out.push_str(format!(in alloc; "{before}[{},{},[", token.from, token.to)?.as_str())?;
        let mut before_name = "";
        for n in 0..token.scopes.len() {
            let name = token.scopes.name(n);
            out.push_str(format!(in alloc; "{before_name}\"{name}\"")?.as_str())?;
            before_name = ",";
        }
        let kind = type_number(token.scopes.std_type());
        out.push_str(format!(in alloc; "],{kind}]")?.as_str())?;
        before = ",";
    }
    out.push_str("]\n")
}

/// The lines of a text, each from where the one before ended.
fn all_lines<R: LineRuns, L: Ledger>(
    alloc: Global,
    form: Form,
    runs: &mut R,
    work: &mut Work,
    text: &Text,
    steps: &mut Steps<L>,
) -> Result<String, AllocError>
    requires budget { work.old.budget ≡ (R.told runs.old).limits.budget }
    requires room { work.old.room ≡ (R.told runs.old).groups }
{
    let mut out = String::new(alloc);
    let mut start = runs.start().copy()?;
    for n in 0..text.lines() {
        let line = text.line(n);
        if line.chars().len() > MOST_CHARS as usize {
            return Ok(out);
        }
        let tokens = runs.tokenise(work, &start, line, steps)?;
        match form {
            Form::Short => write_line(alloc, &mut out, &tokens)?,
            Form::Rows => write_rows(alloc, &mut out, &tokens)?,
        }
        start = tokens.end().copy()?;
    }
    Ok(out)
}

/// The same by a machine, with a count of steps of its own.
pub(crate) fn counted<L: Ledger>(
    alloc: Global,
    form: Form,
    machine: &mut Machine,
    work: &mut Work,
    text: &Text,
    blank: Blank,
) -> Result<String, AllocError>
    requires budget { work.old.budget ≡ machine.old.limits.budget }
    requires room { work.old.room ≡ groups_of machine.old.table }
    requires name { blank.name ≡ L.name }
    requires parts { blank.parts ≡ L.parts }
    requires some { 0 < blank.parts }
{
    let mut steps = Steps::<L>::begin(blank);
    all_lines(alloc, form, machine, work, text, &mut steps)
}

/// What the lines of a text give by a grammar with the scope name `s`, as a text.
pub(crate) fn told(
    alloc: Global,
    rows: &[Row<'_>],
    text: &str,
    budget: u32,
) -> Result<String, AllocError> {
    let limits = Limits {
        nesting: 9,
        budget,
        long: 20000,
        tab: 4,
    };
    let table = table(alloc, rows)?;
    if !has_root(&table) {
        return Ok(String::new(alloc));
    }
    let mut machine = Machine::new(alloc, table, "s", 0, limits)?;
    let mut work = Work::new(alloc, budget, machine.groups())?;
    match Text::from_bytes(alloc, text.as_bytes()) {
        Ok(text) => counted::<Brand>(
            alloc,
            Form::Short,
            &mut machine,
            &mut work,
            &text,
            Blank::new(1),
        ),
        Err(_) => Ok(String::new(alloc)),
    }
}
