//! Tells what a grammar's file, a bracket file or a pattern gives, or why it is refused.

ghost use Rattle.std.specs.Prelude.{◌≤◌, IfOk};
ghost use Rattle.grammar_defs.specs.GrammarShape.{rule_count};
ghost use Rattle.grammar_json.specs.GrammarViews.{grammar_view};

use anyhow::Result;
use bracket_marks::{BracketRefusal, Brackets};
use grammar_defs::MOST_RULES;
use grammar_json::{Grammar, GrammarRefusal, PairRefusal, PairTexts, read_brackets, read_grammar};
use onig_parse::{PatternReader, PatternRefusal};
use rule_graph::{Graph, GraphRefusal};
use std::alloc::Global;
use text_pos::Bytes;

/// The text of a path's bytes.
fn path_text(alloc: Global, path: &Bytes) -> Result<String> {
    Ok(String::from_str(alloc, str::from_utf8(path.as_slice()).unwrap_or("?"))?)
}

/// A grammar, which has few enough rules for a graph, or why there is none.
pub(crate) fn grammar(alloc: Global, file: &str) -> Result<Grammar, GrammarRefusal>
    ensures { IfOk result (λ g. rule_count (grammar_view g) ≤ MOST_RULES) }
{
    match read_grammar(alloc, file.as_bytes()) {
        Ok(grammar) => Ok(grammar),
        Err(refusal) => Err(refusal),
    }
}

fn tell_graph(rt: &HostRuntime, grammar: &Grammar) -> Result<()>
    requires { rule_count (grammar_view grammar.now) ≤ MOST_RULES }
{
    match Graph::build(rt.alloc(), grammar) {
        Ok(graph) => {
            let (rules, groups, unread) = (graph.rules(), graph.groups(), graph.unread());
            println!(rt; "graph rules={rules} groups={groups} unread={unread}")?;
        }
        Err(GraphRefusal::TooWide { count }) => println!(rt; "too wide {count}")?,
        Err(GraphRefusal::Memory) => println!(rt; "memory")?,
    }
    Ok(())
}

/// What a grammar's file gives.
pub(crate) fn tell_grammar(rt: &HostRuntime, file: &str) -> Result<()> {
    match grammar(rt.alloc(), file) {
        Ok(grammar) => tell_graph(rt, &grammar)?,
        Err(GrammarRefusal::Json) => println!(rt; "json")?,
        Err(GrammarRefusal::Shape { path }) => {
            let path = path_text(rt.alloc(), &path)?;
            println!(rt; "shape {path}")?;
        }
        Err(GrammarRefusal::TooManyRules { count }) => println!(rt; "too many rules {count}")?,
        Err(GrammarRefusal::Memory) => println!(rt; "memory")?,
    }
    Ok(())
}

fn tell_pairs(rt: &HostRuntime, pairs: &PairTexts) -> Result<()> {
    let count = pairs.as_slice().len();
    match Brackets::new(rt.alloc(), pairs) {
        Ok(_) => println!(rt; "brackets pairs={count}")?,
        Err(BracketRefusal::TooManyKinds { count }) => println!(rt; "too many kinds {count}")?,
        Err(BracketRefusal::TextLength { index, count }) => {
            println!(rt; "text length {index} {count}")?;
        }
        Err(BracketRefusal::Memory) => println!(rt; "memory")?,
    }
    Ok(())
}

/// What a bracket file gives.
pub(crate) fn tell_brackets(rt: &HostRuntime, file: &str) -> Result<()> {
    match read_brackets(rt.alloc(), file.as_bytes()) {
        Ok(pairs) => tell_pairs(rt, &pairs)?,
        Err(PairRefusal::Json) => println!(rt; "json")?,
        Err(PairRefusal::Shape { path }) => {
            let path = path_text(rt.alloc(), &path)?;
            println!(rt; "shape {path}")?;
        }
        Err(PairRefusal::Memory) => println!(rt; "memory")?,
    }
    Ok(())
}

/// Whether a pattern is read, or why not.
pub(crate) fn tell_pattern(rt: &HostRuntime, reader: &mut PatternReader, text: &str) -> Result<()> {
    match reader.read(text) {
        Ok(_) => println!(rt; "read")?,
        Err(PatternRefusal::Syntax { at }) => println!(rt; "syntax {at}")?,
        Err(PatternRefusal::LeftOut { at }) => println!(rt; "left out {at}")?,
        Err(PatternRefusal::TooDeep { depth }) => println!(rt; "too deep {depth}")?,
        Err(PatternRefusal::TooLong { count }) => println!(rt; "too long {count}")?,
        Err(PatternRefusal::Memory) => println!(rt; "memory")?,
    }
    Ok(())
}
