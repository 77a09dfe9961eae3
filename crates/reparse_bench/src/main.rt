//! Parses the brackets of a text to a tree, takes one bracket of its middle line away, and parses what is left: all of it,
//! and with nodes of the tree from before. The text comes from standard input; the program tells how many rows each tree
//! has and a sum over them, and how many marks were read. With the word `times` the processor's time in nanoseconds
//! stands behind each, the least of five.
#![tactic(auto)]

mod changed;
mod measured;
mod rows;
mod telling;

use crate::changed::{first_mark, without};
use crate::measured::measure;
use anyhow::Result;
use bracket_lex::{Brackets, MarkLines};
use line_text::Text;
use std::env;
use std::rt::CpuClock;

/// A line of so many characters has no brackets.
const LONG: u32 = 20_000;

fn main(rt: HostRuntime) -> Result<()> {
    let mut timed = false;
    for word in env::args(&rt)? {
        if word.as_str() == "times" {
            timed = true;
        }
    }
    run(&rt, timed)
}

pub(crate) fn nanoseconds(rt: &HostRuntime) -> Result<u64> {
    let nanos = rt.thread_cpu_time()?.as_nanos();
    Ok(u64::try_from(nanos).unwrap_or(u64::MAX))
}

/// The text of standard input.
fn given(rt: &HostRuntime) -> Result<String> {
    let mut text = String::new(rt.alloc());
    let mut first = true;
    for line in rt.lines(rt.alloc()) {
        if !first {
            text.push('\n')?;
        }
        first = false;
        text.push_str(line?.as_str())?;
    }
    Ok(text)
}

fn run(rt: &HostRuntime, timed: bool) -> Result<()> {
    let alloc = rt.alloc();
    let file = given(rt)?;
    let Ok(text) = Text::from_bytes(alloc, file.as_str().as_bytes()) else {
        println!(rt; "no text")?;
        return Ok(());
    };
    let brackets = Brackets::usual(alloc)?;
    let old = MarkLines::of_text(alloc, &brackets, &text, LONG)?;
    let middle = text.lines() / 2;
    let Some(mark) = first_mark(&old, middle) else {
        println!(rt; "no bracket")?;
        return Ok(());
    };
    let rest = without(alloc, &text, middle, mark)?;
    let Ok(rest) = Text::from_bytes(alloc, rest.as_str().as_bytes()) else {
        println!(rt; "no text")?;
        return Ok(());
    };
    let new = MarkLines::of_text(alloc, &brackets, &rest, LONG)?;
    measure(rt, &old, &new, middle, mark, timed)
}
