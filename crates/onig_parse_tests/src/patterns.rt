//! Cases of patterns.
use char_sets::CharSet;
use onig_parse::read_pattern;
use pattern_defs::{ListId, PatNode};
use pattern_tree::Pattern;
use std::alloc::{AllocError, Global};

/// The characters of a sample that a node takes, or what else it is.
fn show_node(alloc: Global, shown: &mut String, node: &PatNode) -> Result<(), AllocError> {
    let text = match node {
        PatNode::One(set) => return show_set(shown, set),
        PatNode::At(anchor) => format!(in alloc; "{anchor:?}")?,
        PatNode::Choice(ids) => format!(in alloc; "|{}", ids.as_slice().len())?,
        PatNode::Group { number, body } => format!(in alloc; "({number}:{})", body.0)?,
        PatNode::Repeat {
            body,
            least,
            most,
            greedy,
        } => format!(in alloc; "{{{}:{least},{most:?},{greedy}}}", body.0)?,
        PatNode::Ahead { body, wanted } => format!(in alloc; "(={}:{wanted})", body.0)?,
        PatNode::Behind { arms, wanted } => {
            format!(in alloc; "(<{:?}:{wanted})", arms.as_slice())?
        }
        PatNode::Atomic(body) => format!(in alloc; "(>{})", body.0)?,
        PatNode::Back { number, fold } => format!(in alloc; "\\{number}{fold}")?,
    };
    shown.push_str(text.as_str())
}

fn show_set(shown: &mut String, set: &CharSet) -> Result<(), AllocError> {
    shown.push('[')?;
    for c in ['a', 'b', 'c', 'A', '1', '{', ' ', '\n'] {
        if set.has(c) {
            shown.push(c)?;
        }
    }
    shown.push(']')
}

fn show_list(
    alloc: Global,
    shown: &mut String,
    number: u32,
    nodes: &[PatNode],
) -> Result<(), AllocError> {
    shown.push_str(format!(in alloc; "{number}=")?.as_str())?;
    for node in nodes {
        show_node(alloc, shown, node)?;
    }
    shown.push(' ')
}

/// The lists of a pattern, each with its number before it, how many groups and nodes there are, and flatness.
fn show_pattern(alloc: Global, pattern: &Pattern) -> Result<String, AllocError> {
    let mut shown = String::new(alloc);
    let top = pattern.top();
    for number in 0..top.0 {
        show_list(alloc, &mut shown, number, pattern.list(ListId(number)))?;
    }
    show_list(alloc, &mut shown, top.0, pattern.list(top))?;
    let (groups, size, flat) = (pattern.groups(), pattern.size(), pattern.is_flat());
    shown.push_str(format!(in alloc; "{groups} {size} {flat}")?.as_str())?;
    Ok(shown)
}

/// What comes of the text of a pattern.
pub(crate) fn pattern_shown(alloc: Global, text: &str) -> Result<String, AllocError> {
    match read_pattern(alloc, text) {
        Ok(pattern) => show_pattern(alloc, &pattern),
        Err(refusal) => format!(in alloc; "{refusal:?}"),
    }
}

/// So many of a character, and what stands behind them.
fn repeated(alloc: Global, c: &str, count: u32, end: &str) -> Result<String, AllocError> {
    let mut text = String::new(alloc);
    for _ in 0..count {
        text.push_str(c)?;
    }
    text.push_str(end)?;
    Ok(text)
}

/// How many nodes the pattern of a long text has.
pub(crate) fn repeated_shown(
    alloc: Global,
    c: &str,
    count: u32,
    end: &str,
) -> Result<String, AllocError> {
    let text = repeated(alloc, c, count, end)?;
    match read_pattern(alloc, text.as_str()) {
        Ok(pattern) => {
            let size = pattern.size();
            format!(in alloc; "size {size}")
        }
        Err(refusal) => format!(in alloc; "{refusal:?}"),
    }
}
