//! Searches lines by patterns, and tells how many matches there were and what they and their groups took. It reads
//! commands from standard input, one in a line; `\t`, `\n` and `\r` in a field stand for these characters.
//!
//!     p NUMBER TAB PATTERN    one pattern more
//!     t LINE                  one line more
//!     c                       no pattern and no line
//!     E                       each pattern by itself in each line
//!     A                       all patterns as one scanner in each line
//!     D                       the same, and each match with all its groups
//!     R TIMES                 reads all patterns so often
//!
//! With the word `times` the processor's time in nanoseconds stands behind each count.
#![tactic(auto)]

mod commands;
mod fields;
mod given;
mod search;
mod tally;

use crate::commands::run;
use anyhow::Result;
use std::env;

fn main(rt: HostRuntime) -> Result<()> {
    let timed = env::args(&rt)?
        .into_iter()
        .any(|word| word.as_str() == "times");
    run(&rt, timed)
}
