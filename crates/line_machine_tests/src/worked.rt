ghost use Rattle.std.specs.Prelude.{◌≡◌, ◌≤◌, IfOk};
ghost use Rattle.grammar_defs.specs.GrammarShape.{rule_count};
ghost use Rattle.grammar_json.specs.GrammarViews.{grammar_view};

use crate::lines::{Form, counted};
use crate::rows::has_root;
use grammar_defs::MOST_RULES;
use grammar_json::{Grammar, read_grammar};
use line_machine::Machine;
use line_runs::{Limits, LineRuns};
use line_text::Text;
use onig_match::Work;
use rule_graph::Graph;
use std::alloc::Global;
use std::marker::Brand;
use std::sync::ledger::Blank;
use std::test::Fail;

/// A file that is read as a grammar, which has few enough rules for a graph.
fn grammar(alloc: Global, file: &str) -> Result<Grammar, Fail>
    ensures { IfOk result (λ g. rule_count (grammar_view g) ≤ MOST_RULES) }
{
    match read_grammar(alloc, file.as_bytes()) {
        Ok(grammar) => Ok(grammar),
        Err(_) => Err(Fail::new("the file is no grammar")),
    }
}

/// The machine of a grammar's file.
fn machine(alloc: Global, file: &str, budget: u32) -> Result<Machine, Fail>
    ensures { IfOk result (λ m. m.limits.budget ≡ budget) }
{
    let grammar = grammar(alloc, file)?;
    let Ok(graph) = Graph::build(alloc, &grammar) else {
        return Err(Fail::new("the grammar has no graph"));
    };
    let unread = graph.unread();
    let table = graph.into_table();
    if !has_root(&table) {
        return Err(Fail::new("the top is no group"));
    }
    let limits = Limits {
        nesting: 200,
        budget,
        long: 20_000,
        tab: 4,
    };
    Ok(Machine::new(alloc, table, grammar.scope.text(), unread, limits)?)
}

/// A line for the text and the grammar's file, and then one for the tokens of each line.
fn rows(alloc: Global, file: &str, text: &str, budget: u32) -> Result<String, Fail> {
    let mut machine = machine(alloc, file, budget)?;
    let mut work = Work::new(alloc, budget, machine.groups())?;
    let Ok(text) = Text::from_bytes(alloc, text.as_bytes()) else {
        return Err(Fail::new("the text is none"));
    };
    let mut rows = String::new(alloc);
    write!(
        &mut rows,
        "{{\"opened\":{},\"unread\":{}}}\n",
        text.lines(),
        machine.unread()
    )?;
    let lines = counted::<Brand>(
        alloc,
        Form::Rows,
        &mut machine,
        &mut work,
        &text,
        Blank::new(1),
    )?;
    rows.push_str(lines.as_str())?;
    Ok(rows)
}

/// What the lines of a text give by a grammar's file, in short.
pub(crate) fn short(alloc: Global, file: &str, text: &str, budget: u32) -> Result<String, Fail> {
    let mut machine = machine(alloc, file, budget)?;
    let mut work = Work::new(alloc, budget, machine.groups())?;
    let Ok(text) = Text::from_bytes(alloc, text.as_bytes()) else {
        return Err(Fail::new("the text is none"));
    };
    Ok(counted::<Brand>(
        alloc,
        Form::Short,
        &mut machine,
        &mut work,
        &text,
        Blank::new(1),
    )?)
}

/// That a line of such rows is this one.
fn has(rows: &String, number: usize, row: &str) -> bool {
    rows.as_str()
        .lines()
        .nth(number)
        .is_some_and(|line| line == row)
}

const COMMENT: &str =
    r#"{"scopeName":"s","patterns":[{"name":"comment.block","begin":"/\\*","end":"\\*/"}]}"#;

#[test]
fn a_comment_goes_on_over_lines(rt: HostRuntime) -> Result<(), Fail> {
    let rows = rows(rt.alloc(), COMMENT, "/*x\n(\n*/ )", 100_000)?;
    assert!(rt;
        has(
            &rows,
            1,
            r#"[[0,2,["s","comment.block"],1],[2,3,["s","comment.block"],1]]"#
        )
    );
    Ok(())
}

#[test]
fn a_spent_attempt_stops_its_line_alone(rt: HostRuntime) -> Result<(), Fail> {
    let rows = rows(
        rt.alloc(),
        r#"{"scopeName":"s","patterns":[{"match":"(a*)*b","name":"k"}]}"#,
        "aaaaaaaaaaaaaaaaaaaaaaaaaaaaaaaaaaaaaaaa b\na b",
        1_000,
    )?;
    assert!(rt; has(&rows, 1, r#"[[0,42,["s"],0]]"#));
    assert!(rt; has(&rows, 2, r#"[[0,2,["s"],0],[2,3,["s","k"],0]]"#));
    Ok(())
}

const QUOTE: &str =
    r#"{"scopeName":"s","patterns":[{"name":"string.quote","begin":"^>","while":"^>"}]}"#;

#[test]
fn a_quote_goes_on_while_its_lines_begin_so(rt: HostRuntime) -> Result<(), Fail> {
    let whole = rows(rt.alloc(), QUOTE, "> (\n> (\n> (", 100_000)?;
    assert!(rt;
        has(
            &whole,
            3,
            r#"[[0,1,["s","string.quote"],2],[1,3,["s","string.quote"],2]]"#
        )
    );
    let cut = rows(rt.alloc(), QUOTE, "> (\n (\n> (", 100_000)?;
    assert!(rt; has(&cut, 2, r#"[[0,2,["s"],0]]"#));
    Ok(())
}

const TINY: &str = r##"{"name":"Tiny","scopeName":"source.tiny","fileTypes":["tiny"],
    "patterns":[{"include":"#all"}],"repository":{
    "all":{"patterns":[{"include":"#line"},{"include":"#text"}]},
    "line":{"match":"//.*$","name":"comment.line.tiny"},
    "text":{"begin":"\"","end":"\"","name":"string.quoted.tiny","patterns":[
      {"match":"\\\\.","name":"constant.character.escape.tiny"}]}}}"##;

const TINY_TEXT: &str = r#"function f(a) {
  if (a[0] > 1) {
    log("(" + a); // )
  }
}
"#;

#[test]
fn strings_and_comments_of_a_small_language(rt: HostRuntime) -> Result<(), Fail> {
    let rows = rows(rt.alloc(), TINY, TINY_TEXT, 100_000)?;
    assert!(rt; has(&rows, 0, r#"{"opened":6,"unread":0}"#));
    assert!(rt;
        has(
            &rows,
            3,
            r#"[[0,8,["source.tiny"],0],[8,9,["source.tiny","string.quoted.tiny"],2],[9,10,["source.tiny","string.quoted.tiny"],2],[10,11,["source.tiny","string.quoted.tiny"],2],[11,18,["source.tiny"],0],[18,22,["source.tiny","comment.line.tiny"],1]]"#
        )
    );
    Ok(())
}

#[test]
fn patterns_that_cannot_be_read_never_match(rt: HostRuntime) -> Result<(), Fail> {
    let rows = rows(
        rt.alloc(),
        r#"{"scopeName":"s","patterns":[{"match":"(?~x)","name":"q"},{"match":"(","name":"q"}]}"#,
        "x",
        100_000,
    )?;
    assert!(rt; has(&rows, 0, r#"{"opened":1,"unread":2}"#));
    assert!(rt; has(&rows, 1, r#"[[0,1,["s"],0]]"#));
    Ok(())
}
