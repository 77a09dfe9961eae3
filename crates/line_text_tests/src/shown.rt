//! Texts and carries as they are told.
use line_text::{Carry, Text};
use std::alloc::{AllocError, Global};

/// The lines of a small text, each with a bar behind it, and the size of a large one.
pub(crate) fn lines(alloc: Global, text: &Text) -> Result<String, AllocError> {
    let (count, chars) = (text.lines(), text.chars());
    if chars >= 1000 {
        return format!(in alloc; "{count} lines, {chars} chars");
    }
    let mut lines = String::new(alloc);
    for n in 0..text.lines() {
        for c in text.line(n).chars() {
            lines.push(*c)?;
        }
        lines.push('|')?;
    }
    Ok(lines)
}

/// The runs of a carry: the old line, the new line and the count of each.
pub(crate) fn runs(alloc: Global, carry: &Carry) -> Result<String, AllocError> {
    let mut runs = String::new(alloc);
    if carry.as_slice().is_empty() {
        runs.push_str("[]")?;
    }
    for run in carry.as_slice() {
        let (old, new, count) = (run.old, run.new, run.count);
        let one = format!(in alloc; "[{old} {new} {count}]")?;
        runs.push_str(one.as_str())?;
    }
    Ok(runs)
}
