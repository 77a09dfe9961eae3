//! The program `brackets`: answers a script of questions about the brackets and the tokens of a text file.
#![tactic(auto)]

mod adapters;
#[cfg(test)]
mod grammar_tests;
mod open;
mod reply_lines;
mod run;
mod serve;
mod status;
mod summaries;
#[cfg(test)]
mod tests;

ghost use Rattle.std.specs.Prelude.{◌≡◌, ◌<◌};

use crate::adapters::{FileStore, InFeed, OutFeed};
use crate::run::run;
use crate::status::Status;
use std::io::ErrorKind;
use std::marker::Brand;
use std::process::ExitCode;
use std::sync::ledger::{Blank, Ledger};
use std::{env, io};
use step_count::Steps;

fn main(rt: HostRuntime) -> ExitCode {
    let status = match read_args(&rt) {
        Ok(words) => serve_words::<Brand, Brand>(&rt, &words, Blank::new(1), Blank::new(1)),
        Err(status) => status,
    };
    if let Some(line) = status.line() {
        let _ = rt.eprintln(line);
    }
    ExitCode::from(status.number())
}

/// The words of the command line, of which the first is the program's name.
fn read_args(rt: &HostRuntime) -> Result<Vec<String>, Status> {
    let mut words = Vec::new(rt.alloc());
    let args = match env::args(rt) {
        Ok(args) => args,
        Err(error) => {
            return Err(if error.kind() == ErrorKind::OutOfMemory {
                Status::Memory
            } else {
                Status::Words
            });
        }
    };
    for word in args {
        if words.push(word).is_err() {
            return Err(Status::Memory);
        }
    }
    Ok(words)
}

/// Runs over the files of the system, standard input and standard output.
fn serve_words<L: Ledger, M: Ledger>(
    rt: &HostRuntime,
    words: &[String],
    steps: Blank,
    marks: Blank,
) -> Status
    requires steps_name { steps.name ≡ L.name }
    requires steps_parts { steps.parts ≡ L.parts }
    requires steps_some { 0 < steps.parts }
    requires marks_name { marks.name ≡ M.name }
    requires marks_parts { marks.parts ≡ M.parts }
    requires marks_some { 0 < marks.parts }
{
    let mut files = FileStore::new(rt);
    let mut script = InFeed::new(rt.stdin());
    let mut sink = OutFeed::new(io::writer(rt));
    let mut steps = Steps::<L>::begin(steps);
    let mut marks = Steps::<M>::begin(marks);
    run(
        rt.alloc(),
        words,
        &mut files,
        &mut script,
        &mut sink,
        &mut steps,
        &mut marks,
    )
}
