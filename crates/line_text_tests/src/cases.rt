//! One case: what is read, and what both calls make of a batch.
use crate::fields::{copies, edit};
use crate::shown::{lines, runs};
use anyhow::Result;
use line_text::{Edit, Text};

/// A file that is read: its lines and how many characters it has, or why it is refused.
fn tell_read(rt: &HostRuntime, file: &[u8]) -> Result<()> {
    match Text::from_bytes(rt.alloc(), file) {
        Ok(text) => {
            let shown = lines(rt.alloc(), &text)?;
            let chars = text.chars();
            println!(rt; "{shown} {chars}")?;
        }
        Err(refusal) => println!(rt; "{refusal:?}")?,
    }
    Ok(())
}

/// What `edited` answers, and the text that it was asked about.
fn tell_edited(rt: &HostRuntime, text: &Text, edits: &[Edit]) -> Result<()> {
    match text.edited(rt.alloc(), edits) {
        Ok(made) => {
            let after = lines(rt.alloc(), &made.text)?;
            let carried = runs(rt.alloc(), &made.carry)?;
            print!(rt; "{after} {carried}")?;
        }
        Err(refusal) => print!(rt; "{refusal:?}")?,
    }
    let kept = lines(rt.alloc(), text)?;
    print!(rt; " beside {kept}")?;
    Ok(())
}

/// What `apply` answers, and the text after it.
fn tell_applied(rt: &HostRuntime, text: &mut Text, edits: &[Edit]) -> Result<()> {
    match text.apply(rt.alloc(), edits) {
        Ok(carry) => {
            let carried = runs(rt.alloc(), &carry)?;
            print!(rt; "; applied {carried}")?;
        }
        Err(refusal) => print!(rt; "; {refusal:?}")?,
    }
    let after = lines(rt.alloc(), text)?;
    println!(rt; " {after}")?;
    Ok(())
}

/// A batch of edits in a file.
fn tell_edit(rt: &HostRuntime, file: &[u8], count: u32, fields: &[&str]) -> Result<()> {
    let mut edits = Vec::new(rt.alloc());
    for field in fields {
        match edit(rt.alloc(), field, count)? {
            Some(edit) => edits.push(edit)?,
            None => println!(rt; "no edit: {field}")?,
        }
    }
    match Text::from_bytes(rt.alloc(), file) {
        Ok(text) => {
            let mut text = text;
            tell_edited(rt, &text, edits.as_slice())?;
            tell_applied(rt, &mut text, edits.as_slice())?;
        }
        Err(refusal) => println!(rt; "{refusal:?}")?,
    }
    Ok(())
}

/// Tells what a case gives.
pub(crate) fn tell(rt: &HostRuntime, line: &str) -> Result<()> {
    let fields: Vec<&str> = line.split('\t').collect(rt.alloc())?;
    match fields.as_slice() {
        ["read", count, file] => {
            let file = copies(rt.alloc(), file, count.parse::<u32>().unwrap_or(0))?;
            tell_read(rt, file.as_slice())
        }
        ["edit", count, file, times, edits @ ..] => {
            let file = copies(rt.alloc(), file, count.parse::<u32>().unwrap_or(0))?;
            let times = times.parse::<u32>().unwrap_or(0);
            tell_edit(rt, file.as_slice(), times, edits)
        }
        _ => {
            println!(rt; "{line}")?;
            Ok(())
        }
    }
}
