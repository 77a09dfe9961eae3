//! Shows the graphs and injections of worked grammars, and the limit on active lists.

ghost use Rattle.std.specs.Prelude.{◌≤◌, IfOk};
ghost use Rattle.grammar_defs.specs.GrammarShape.{rule_count};
ghost use Rattle.grammar_json.specs.GrammarViews.{grammar_view};

use grammar_defs::MOST_RULES;
use grammar_json::{Grammar, read_grammar};
use rule_graph::{Graph, GraphRefusal};
use rule_table::{Rule, RuleKind, Slot};
use scope_defs::RuleId;
use std::alloc::Global;
use std::test::Fail;

/// A file that is read as a grammar, which has few enough rules for a graph.
fn grammar(alloc: Global, file: &str) -> Result<Grammar, Fail>
    ensures { IfOk result (λ g. rule_count (grammar_view g) ≤ MOST_RULES) }
{
    match read_grammar(alloc, file.as_bytes()) {
        Ok(grammar) => Ok(grammar),
        Err(_) => Err(Fail::new("the file is no grammar")),
    }
}

/// A slot: none, a pattern with its groups, or a text that is read later with its groups.
fn tell_slot(told: &mut String, slot: &Slot) -> Result<(), Fail> {
    match slot {
        Slot::Never => told.push_str("-")?,
        Slot::Read(pattern) => write!(told, "p{}", pattern.groups())?,
        Slot::Later { groups, .. } => write!(told, "l{}", groups)?,
    }
    Ok(())
}

fn kind_word(kind: RuleKind) -> &'static str {
    match kind {
        RuleKind::Match => "match",
        RuleKind::BeginEnd => "end",
        RuleKind::BeginWhile => "while",
        RuleKind::Group => "group",
    }
}

/// A rule: its kind, its patterns, and the rules that are searched inside it.
fn tell_rule(told: &mut String, rule: &Rule) -> Result<(), Fail> {
    told.push_str(kind_word(rule.kind))?;
    told.push_str(" ")?;
    tell_slot(told, &rule.start)?;
    told.push_str(" ")?;
    tell_slot(told, &rule.finish)?;
    for id in rule.active.as_slice() {
        write!(told, " {}", id.0)?;
    }
    told.push_str("; ")?;
    Ok(())
}

/// The rules of a grammar by their numbers, the most groups of a pattern, and how many texts can't be read; or how long
/// its active lists are.
fn told(alloc: Global, file: &str) -> Result<String, Fail> {
    let mut told = String::new(alloc);
    match Graph::build(alloc, &grammar(alloc, file)?) {
        Ok(graph) => {
            for n in 0..graph.rules() {
                tell_rule(&mut told, graph.rule(RuleId(n)))?;
            }
            write!(told, "{} {}", graph.groups(), graph.unread())?;
        }
        Err(GraphRefusal::TooWide { count }) => write!(told, "too wide {}", count)?,
        Err(GraphRefusal::Memory) => return Err(Fail::new("there is no memory")),
    }
    Ok(told)
}

#[test]
fn grammars_have_these_graphs(rt: HostRuntime) -> Result<(), Fail> {
    for (file, graph) in [
        (r#"{"scopeName":"s"}"#, "group - -; 0 0"),
        (
            r#"{"scopeName":"s","patterns":[{"match":"(?~x)"},{"match":"("}]}"#,
            "group - - 1 2; match - -; match - -; 0 2",
        ),
        (
            r##"{"scopeName":"s","patterns":[{"include":"#a"}],"repository":{"a":{"patterns":[{"include":"#b"},{"match":"(x)"}]},"b":{"patterns":[{"include":"#a"},{"match":"y"}]}}}"##,
            "group - - 4 2; group - - 2 4 2; match p1 -; group - - 4 2 4; match p0 -; 1 0",
        ),
        (
            r#"{"scopeName":"s","patterns":[{"include":"$self"},{"begin":"x","end":"(y)\\1","patterns":[{"include":"$self"}]}]}"#,
            "group - - 1 1; end p0 l2 1; 2 0",
        ),
    ] {
        assert_eq!(rt; told(rt.alloc(), file)?.as_str(), graph);
    }
    Ok(())
}

/// A grammar whose group `a` has so many rules, and with as many rules that include it.
fn wide(alloc: Global, rules: u32) -> Result<String, Fail> {
    let mut file = String::new(alloc);
    file.push_str(r##"{"scopeName":"s","repository":{"a":{"patterns":[{"match":"x"}"##)?;
    for _ in 1..rules {
        file.push_str(r##",{"match":"x"}"##)?;
    }
    file.push_str(r##"]}},"patterns":[{}"##)?;
    for _ in 0..rules {
        file.push_str(r##",{"begin":"x","end":"y","patterns":[{"include":"#a"}]}"##)?;
    }
    file.push_str("]}")?;
    Ok(file)
}

#[test]
fn lists_are_added_up_to_the_limit(rt: HostRuntime) -> Result<(), Fail> {
    let file = wide(rt.alloc(), 3_000)?;
    assert_eq!(rt;
        told(rt.alloc(), file.as_str())?.as_str(),
        "too wide 8391000"
    );
    Ok(())
}

/// The injections of a grammar in order: the priority, the place in the key, and the number and kind of the rule; and how
/// many texts and keys can't be read.
fn told_injections(alloc: Global, file: &str) -> Result<String, Fail> {
    let mut told = String::new(alloc);
    match Graph::build(alloc, &grammar(alloc, file)?) {
        Ok(graph) => {
            for injection in graph.injections() {
                write!(
                    told,
                    "{} {} {}; ",
                    injection.priority, injection.entry, injection.rule.0
                )?;
            }
            write!(told, "{}", graph.unread())?;
        }
        Err(_) => return Err(Fail::new("there is no graph")),
    }
    Ok(told)
}

#[test]
fn grammars_have_these_injections(rt: HostRuntime) -> Result<(), Fail> {
    for (file, injections) in [
        (r#"{"scopeName":"s"}"#, "0"),
        (
            r#"{"scopeName":"s","injections":{"b":{},"R:a":{},"L:c":{}}}"#,
            "-1 0 1; 0 0 3; 1 0 2; 0",
        ),
        (
            r#"{"scopeName":"s","injections":{"z":{"match":"x"},"a":{"patterns":[{"match":"x"}]},"B":{}}}"#,
            "0 0 1; 0 0 2; 0 0 4; 0",
        ),
        (
            r#"{"scopeName":"s","patterns":[{"match":"x"}],"repository":{"r":{"match":"x"}},"injections":{"R:a, b, L:c, d":{"match":"x"},"e":{}}}"#,
            "-1 2 3; 0 1 3; 0 3 3; 0 0 4; 1 0 3; 0",
        ),
        (
            r#"{"scopeName":"s","injections":{"":{},"L:":{},"a |":{},"b":{"match":"("},"c":null}}"#,
            "0 0 4; 4",
        ),
    ] {
        assert_eq!(rt; told_injections(rt.alloc(), file)?.as_str(), injections);
    }
    Ok(())
}
