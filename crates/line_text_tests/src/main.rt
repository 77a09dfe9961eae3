//! Reads files and makes batches of edits, and tells the lines, what is carried, or why it was refused. Each line of
//! standard input is a case, with tabs between its fields; a line that begins with `#` is told as it is.
//!
//!     read COUNT FILE                     a file of so many copies
//!     edit COUNT FILE COUNT EDIT ...      such a file, and a batch of edits whose texts are copied so often
//!
//! An edit is `LINE:COL-LINE:COL=TEXT`. In a file and a text `\t`, `\n`, `\r` and `\xHH` stand for one byte.
#![tactic(auto)]

mod cases;
mod fields;
mod shown;

use crate::cases::tell;
use anyhow::Result;

fn main(rt: HostRuntime) -> Result<()> {
    for line in rt.lines(rt.alloc()) {
        let line = line?;
        tell(&rt, line.as_str())?;
    }
    Ok(())
}
