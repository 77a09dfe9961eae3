//! What gives the tokens of lines by the rules of a grammar, or of none.

ghost use Rattle.std.specs.Prelude.{◌≡◌, ◌≢◌, List, [], ℕ, ◌-◌, ◌<◌, ◌≤◌, ◌^◌, length, None, Some, IfOk, OnOk};
ghost use Rattle.rule_defs.specs.Rules.{BeginEnd};
ghost use Rattle.line_search.specs.Machines.{kind_at};
ghost use Rattle.line_defs.specs.Frames.{root, start_of};
ghost use Rattle.line_defs.specs.Line.{tokenised, with_line_feed, result_of, line_run, at_front};
ghost use Rattle.line_laws.specs.Starts.{IsFit};
ghost use Rattle.line_turns.specs.Over.{machine_of};
ghost use Rattle.line_machine.specs.Machines.{line_machine_of, groups_of};
ghost use Rattle.line_machine.specs.Grammars.{table_of, IsGrammar};

use crate::line::{ran_line, unrun_line};
use line_runs::{LineRuns, LineTokens};
use line_search::Searcher;
use line_text::Line;
use line_turns::Over;
use onig_match::Work;
use rule_table::RuleTable;
use scope_defs::RuleId;
use scope_names::Scopes;
use scope_stack::{EndText, Frame, Stack, State};
use std::alloc::{AllocError, Global};
use std::marker::Model;
use std::rc::Rc;
use std::sync::ledger::Ledger;
use step_count::Steps;
use text_pos::Limits;

/// The rules of a grammar, and what searches by them.
#[derive(Drop)]
struct Grammar {
    table: Rc<RuleTable>,
    searcher: Searcher,
}

impl Grammar {
    /// The result of a line, whose text has a line feed at its end.
    fn line(
        &mut self,
        alloc: Global,
        limits: Limits,
        work: &mut Work,
        start: &State,
        text: &[char],
    ) -> Result<LineTokens, AllocError>
        requires one { IsGrammar self.old }
        requires fit { IsFit (machine_of (table_of self.old) limits) start.now }
        requires some { 0 < length text.now }
        requires short { length text.now < 2 ^ 31 }
        requires budget { work.old.budget ≡ limits.budget }
        requires room { (table_of self.old).groups ≤ work.old.room }
        ensures one { IsGrammar self.new }
        ensures same { table_of self.new ≡ table_of self.old }
        ensures budget { work.new.budget ≡ work.old.budget }
        ensures room { work.new.room ≡ work.old.room }
        ensures gives { IfOk result (λ r. (line : List ℕ) → text.now ≡ with_line_feed line → r ≡ result_of line
            (line_run (machine_of (table_of self.old) limits) (with_line_feed line) (at_front start.now))) }
    {
        let over = Over {
            alloc,
            table: &self.table,
            limits,
            text,
        };
        ran_line(&over, &mut self.searcher, work, start)
    }
}

/// What gives the tokens of lines by the rules of a grammar, or of no grammar.
#[derive(Drop)]
pub struct Machine {
    alloc: Global,
    grammar: Option<Grammar>,
    limits: Limits,
    start: State,
    unread: u32,
    runs: u64,
    /// Room for a line with a line feed at its end.
    text: Vec<char>,
}

/// The root: rule 0, with a scope name.
fn root_of(alloc: Global, scope_name: &str) -> Result<Frame, AllocError>
    ensures { IfOk result (λ frame. frame ≡ root scope_name.now) }
{
    let content = Scopes::empty().push(alloc, scope_name)?;
    Ok(Frame {
        rule: RuleId(0),
        enter: None,
        anchor: None,
        took_end: false,
        end: EndText::none(),
        name: content.copy()?,
        content,
    })
}

/// What a text starts from: the root alone.
fn start_of(alloc: Global, scope_name: &str) -> Result<State, AllocError>
    ensures { IfOk result (λ start. start ≡ start_of scope_name.now) }
{
    let stack = Stack::root(alloc, root_of(alloc, scope_name)?)?;
    Ok(State::new(stack, true))
}

/// Fills a text with a line and a line feed behind it.
fn fill_text(text: &mut Vec<char>, line: &[char]) -> Result<(), AllocError>
    ensures { OnOk result (text.new.items ≡ with_line_feed line.now) }
{
    text.clear();
    text.extend_from_slice(line)?;
    text.push('\n')?;
    Ok(())
}

impl Model for Machine {
    ghost use Rattle.line_machine.specs.Machines.{MachineState};

    ghost Value = { MachineState };

    ghost use Rattle.line_machine.specs.Grammars.{table_in, IsMachine};

    ghost view = { λ m. record { table = table_in m.grammar; limits = m.limits; start = m.start; unread = m.unread; runs = m.runs } };

    ghost invariant = { IsMachine };
}

impl Machine {
    /// A machine of the rules of a grammar with a scope name, of whose texts of patterns so many can't be read.
    pub fn new(
        alloc: Global,
        table: RuleTable,
        scope_name: &str,
        unread: u32,
        limits: Limits,
    ) -> Result<Machine, AllocError>
        requires top { kind_at table 0 ≢ BeginEnd }
        ensures { IfOk result (λ m. m ≡ record { table = Some table; limits = limits; start = start_of scope_name.now; unread = unread; runs = 0 }) }
    {
        let start = start_of(alloc, scope_name)?;
        let table = Rc::new(alloc, table)?;
        let searcher = Searcher::new(alloc, table.clone()?)?;
        Ok(Machine {
            alloc,
            grammar: Some(Grammar { table, searcher }),
            limits,
            start,
            unread,
            runs: 0,
            text: Vec::new(alloc),
        })
    }

    /// A machine without a grammar: a line is one token without scopes.
    pub fn plain(alloc: Global, limits: Limits) -> Result<Machine, AllocError>
        ensures { IfOk result (λ m. m ≡ record { table = None; limits = limits; start = start_of []; unread = 0; runs = 0 }) }
    {
        Ok(Machine {
            alloc,
            grammar: None,
            limits,
            start: start_of(alloc, "")?,
            unread: 0,
            runs: 0,
            text: Vec::new(alloc),
        })
    }

    /// How many texts of patterns of its grammar can't be read.
    pub fn unread(&self) -> u32
        ensures { result ≡ self.now.unread }
    {
        self.unread
    }

    /// The result of a line.
    fn line(
        &mut self,
        work: &mut Work,
        start: &State,
        line: &[char],
    ) -> Result<LineTokens, AllocError>
        requires fit { IsFit (line_machine_of self.old.table self.old.limits) start.now }
        requires short { length line.now < 2 ^ 31 - 1 }
        requires budget { work.old.budget ≡ self.old.limits.budget }
        requires room { groups_of self.old.table ≤ work.old.room }
        ensures same { self.new ≡ self.old }
        ensures budget { work.new.budget ≡ work.old.budget }
        ensures room { work.new.room ≡ work.old.room }
        ensures gives { IfOk result (λ r. r ≡ tokenised (line_machine_of self.old.table self.old.limits) start.now line.now) }
    {
        let length = line.len() as u32;
        match &mut self.grammar {
            None => unrun_line(self.alloc, start, length),
            Some(grammar) => {
                if length >= self.limits.long {
                    return unrun_line(self.alloc, start, length);
                }
                fill_text(&mut self.text, line)?;
                grammar.line(self.alloc, self.limits, work, start, self.text.as_slice())
            }
        }
    }
}

impl LineRuns for Machine {
    ghost use Rattle.line_machine.specs.Machines.{told};

    ghost told = { told };

    ghost count = { λ m. m.runs };

    fn start(&self) -> &State {
        &self.start
    }

    fn groups(&self) -> u32 {
        match &self.grammar {
            None => 0,
            Some(grammar) => grammar.table.groups(),
        }
    }

    fn limits(&self) -> Limits {
        self.limits
    }

    fn tokenise<L: Ledger>(
        &mut self,
        work: &mut Work,
        start: &State,
        line: &Line,
        steps: &mut Steps<L>,
    ) -> Result<LineTokens, AllocError> {
        steps.tick();
        self.runs = self.runs.saturating_add(1);
        self.line(work, start, line.chars())
    }
}
