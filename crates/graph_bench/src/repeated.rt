//! Reads a grammar's file and patterns and makes its graph many times over, to measure the time.

ghost use Rattle.std.specs.Prelude.{◌≤◌};
ghost use Rattle.grammar_defs.specs.GrammarShape.{rule_count};
ghost use Rattle.grammar_json.specs.GrammarViews.{grammar_view};

use crate::files::grammar;
use anyhow::Result;
use grammar_defs::MOST_RULES;
use grammar_json::{Grammar, read_grammar};
use onig_parse::PatternReader;
use rule_graph::Graph;
use serde_json::Value;
use std::alloc::Global;
use std::rt::CpuClock;

fn nanoseconds(rt: &HostRuntime) -> Result<u64> {
    let nanos = rt.thread_cpu_time()?.as_nanos();
    Ok(u64::try_from(nanos).unwrap_or(u64::MAX))
}

/// Reads a file as JSON so often.
fn json(alloc: Global, file: &str, times: u64) -> u64 {
    let mut done = 0u64;
    for _ in 0..times {
        if Value::from_str(alloc, file).is_ok() {
            done = done.saturating_add(1);
        }
    }
    done
}

/// Reads a file as a grammar so often.
fn grammars(alloc: Global, file: &str, times: u64) -> u64 {
    let mut done = 0u64;
    for _ in 0..times {
        if read_grammar(alloc, file.as_bytes()).is_ok() {
            done = done.saturating_add(1);
        }
    }
    done
}

/// Makes a grammar's graph so often.
fn graphs(alloc: Global, grammar: &Grammar, times: u64) -> u64
    requires { rule_count (grammar_view grammar.now) ≤ MOST_RULES }
{
    let mut done = 0u64;
    for _ in 0..times {
        if Graph::build(alloc, grammar).is_ok() {
            done = done.saturating_add(1);
        }
    }
    done
}

/// The same of the grammar in a file.
fn graphs_of(alloc: Global, file: &str, times: u64) -> u64 {
    match grammar(alloc, file) {
        Ok(grammar) => graphs(alloc, &grammar, times),
        Err(_) => 0,
    }
}

/// Reads patterns so often, by one reader each time.
fn patterns(alloc: Global, texts: &[String], times: u64) -> u64 {
    let mut done = 0u64;
    for _ in 0..times {
        let mut reader = PatternReader::new(alloc);
        for text in texts {
            if reader.read(text.as_str()).is_ok() {
                done = done.saturating_add(1);
            }
        }
    }
    done
}

/// What was done so often, with the time where it is wanted.
fn tell(rt: &HostRuntime, name: &str, done: u64, since: u64, timed: bool) -> Result<()> {
    if timed {
        let time = nanoseconds(rt)?.saturating_sub(since);
        println!(rt; "{name} done={done} ns={time}")?;
    } else {
        println!(rt; "{name} done={done}")?;
    }
    Ok(())
}

/// Reads a file as JSON alone, as a grammar, makes the graph, and reads the patterns, each so often.
pub(crate) fn repeat(
    rt: &HostRuntime,
    file: &str,
    texts: &[String],
    times: u64,
    timed: bool,
) -> Result<()> {
    let start = nanoseconds(rt)?;
    let done = json(rt.alloc(), file, times);
    tell(rt, "json", done, start, timed)?;
    let start = nanoseconds(rt)?;
    let done = grammars(rt.alloc(), file, times);
    tell(rt, "grammar", done, start, timed)?;
    let start = nanoseconds(rt)?;
    let done = graphs_of(rt.alloc(), file, times);
    tell(rt, "graph", done, start, timed)?;
    let start = nanoseconds(rt)?;
    let done = patterns(rt.alloc(), texts, times);
    tell(rt, "patterns", done, start, timed)
}
