//! Parses the brackets of a text to a tree, and asks the tree. The text comes from standard input; the program tells how
//! many lines and nodes there are, and what the descents answer at places all over the text, in short sums. With
//! the word `times` the processor's time in nanoseconds stands behind each, and with `unparsed` the program stops before it
//! parses.
#![tactic(auto)]

mod asked;
mod counted;
mod marked;

use crate::asked::ask_all;
use crate::counted::count_nodes;
use crate::marked::{lines_of, tree_of};
use anyhow::Result;
use line_text::Text;
use std::env;
use std::rt::CpuClock;

fn main(rt: HostRuntime) -> Result<()> {
    let mut timed = false;
    let mut parsed = true;
    for word in env::args(&rt)? {
        match word.as_str() {
            "times" => timed = true,
            "unparsed" => parsed = false,
            _ => {}
        }
    }
    run(&rt, timed, parsed)
}

pub(crate) fn nanoseconds(rt: &HostRuntime) -> Result<u64> {
    let nanos = rt.thread_cpu_time()?.as_nanos();
    Ok(u64::try_from(nanos).unwrap_or(u64::MAX))
}

/// A line with a number, and with the time, where it is wanted.
pub(crate) fn tell(rt: &HostRuntime, name: &str, number: u64, time: Option<u64>) -> Result<()> {
    match time {
        Some(ns) => println!(rt; "{name} {number} ns={ns}")?,
        None => println!(rt; "{name} {number}")?,
    }
    Ok(())
}

/// The text of standard input.
fn given(rt: &HostRuntime) -> Result<String> {
    let mut text = String::new(rt.alloc());
    let mut first = true;
    for line in rt.lines(rt.alloc()) {
        if !first {
            text.push('\n')?;
        }
        first = false;
        text.push_str(line?.as_str())?;
    }
    Ok(text)
}

fn run(rt: &HostRuntime, timed: bool, parsed: bool) -> Result<()> {
    let alloc = rt.alloc();
    let file = given(rt)?;
    let Ok(text) = Text::from_bytes(alloc, file.as_str().as_bytes()) else {
        println!(rt; "no text")?;
        return Ok(());
    };
    let lines = lines_of(alloc, &text)?;
    if !parsed {
        return Ok(());
    }
    let start = nanoseconds(rt)?;
    let tree = tree_of(alloc, &lines, 200)?;
    let time = nanoseconds(rt)?.saturating_sub(start);
    tell(rt, "parse", u64::from(text.lines()), timed.then_some(time))?;
    tell(rt, "nodes", count_nodes(alloc, &tree)?, None)?;
    ask_all(rt, &tree, &text, timed)
}
