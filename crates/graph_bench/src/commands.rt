//! Obeys the commands of standard input, which give grammars and patterns to measure.

use crate::fields::plain_text;
use crate::files::{tell_brackets, tell_grammar, tell_pattern};
use crate::repeated::repeat;
use anyhow::Result;
use onig_parse::PatternReader;
use std::alloc::Global;

/// What was given: the text of the last grammar's file, and patterns.
#[derive(Drop)]
struct Given {
    file: String,
    texts: Vec<String>,
    reader: PatternReader,
}

impl Given {
    fn new(alloc: Global) -> Given {
        Given {
            file: String::new(alloc),
            texts: Vec::new(alloc),
            reader: PatternReader::new(alloc),
        }
    }

    fn grammar(&mut self, rt: &HostRuntime, field: &str) -> Result<()> {
        self.file = plain_text(rt.alloc(), field)?;
        tell_grammar(rt, self.file.as_str())
    }

    fn pattern(&mut self, rt: &HostRuntime, field: &str) -> Result<()> {
        let text = plain_text(rt.alloc(), field)?;
        tell_pattern(rt, &mut self.reader, text.as_str())?;
        self.texts.push(text)?;
        Ok(())
    }
}

fn command(rt: &HostRuntime, given: &mut Given, line: &str, timed: bool) -> Result<()> {
    if let Some(field) = line.strip_prefix("g ") {
        return given.grammar(rt, field);
    }
    if let Some(field) = line.strip_prefix("b ") {
        let file = plain_text(rt.alloc(), field)?;
        return tell_brackets(rt, file.as_str());
    }
    if let Some(field) = line.strip_prefix("p ") {
        return given.pattern(rt, field);
    }
    if let Some(times) = line.strip_prefix("T ") {
        let times = times.parse::<u64>().unwrap_or(1);
        return repeat(
            rt,
            given.file.as_str(),
            given.texts.as_slice(),
            times,
            timed,
        );
    }
    if line == "c" {
        given.texts.clear();
    }
    Ok(())
}

/// Obeys the commands of standard input.
pub(crate) fn run(rt: &HostRuntime, timed: bool) -> Result<()> {
    let mut given = Given::new(rt.alloc());
    for line in rt.lines(rt.alloc()) {
        let line = line?;
        command(rt, &mut given, line.as_str(), timed)?;
    }
    Ok(())
}
