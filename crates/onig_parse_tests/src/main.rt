//! Cases of `char_sets`, `onig_class`, `pattern_tree` and `onig_parse`: sets, escapes, classes and patterns that are
//! read from their texts. Each line of standard input is a case, its fields between tabs; `\t`, `\n`, `\\` and
//! `\u{660}` in a field stand for characters. The program tells each line again and, behind `=>`, what came.
//! Lines that begin with `#` say what the cases behind them show.
//!
//!     named SET CHARS                 which characters the set, its complement and its name have
//!     word CHARS                      which are word characters, and which are in the named set
//!     ranges ENDS CHARS               which are in the ranges, and in the complement of the complement
//!     join ENDS ENDS CHARS            which are in either, in both, in the first alone, and in its copy
//!     other case ENDS CHARS           which are in the ranges or are the other case of a letter there
//!     escape TEXT CHARS               the character that is read, or which characters are in the set
//!     class DEPTH TEXT CHARS          which characters are in the class that is read
//!     folded class DEPTH TEXT CHARS   the same without regard to the case of letters
//!     letter CHAR CHARS               which characters are a letter without regard to its case
//!     dot CHARS                       which characters the dot stands for
//!     dot of all CHARS                the same where it stands for line ends too
//!     pattern TEXT                    the lists of a pattern, its groups, its nodes and its flatness
//!     repeated CHAR COUNT TEXT        how many nodes the pattern of so many characters and a text has
#![tactic(auto)]

mod cases;
mod classes;
mod fields;
mod patterns;
mod sets;
#[cfg(test)]
mod trees;

use crate::cases::answer;
use crate::fields::Fields;
use anyhow::Result;

fn main(rt: HostRuntime) -> Result<()> {
    for line in rt.lines(rt.alloc()) {
        let line = line?;
        if line.as_str().starts_with('#') {
            println!(rt; "{line}")?;
        } else {
            let fields = Fields::read(rt.alloc(), line.as_str())?;
            let answer = answer(rt.alloc(), &fields)?;
            println!(rt; "{line} => {answer}")?;
        }
    }
    Ok(())
}
