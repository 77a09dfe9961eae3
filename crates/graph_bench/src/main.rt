//! Reads the files of grammars and of brackets, and tells what they give or why they are refused. It reads commands from
//! standard input, one in a line; `\t`, `\n`, `\r` and `\\` in a field stand for these characters.
//!
//!     g FILE       the text of a grammar's file: how many rules its graph has, how many groups its patterns have at
//!                  most, and how many texts of patterns can't be read
//!     b FILE       the text of a bracket file: how many pairs it has, and how many brackets these give
//!     p PATTERN    the text of a pattern: whether it is read
//!     c            no pattern
//!     T TIMES      reads the last grammar's file so often: as JSON alone, as a grammar, and the graph; and so often
//!                  each pattern
//!
//! With the word `times` the processor's time in nanoseconds stands behind each of the four.
#![tactic(auto)]

mod commands;
mod fields;
mod files;
mod repeated;

use crate::commands::run;
use anyhow::Result;
use std::env;

fn main(rt: HostRuntime) -> Result<()> {
    let timed = env::args(&rt)?
        .into_iter()
        .any(|word| word.as_str() == "times");
    run(&rt, timed)
}
