ghost use Rattle.std.specs.Prelude.{◌≡◌, ◌≢◌, ◌<◌, ◌≤◌, length, map, All, IfOk, IfSome, IsTrue};
ghost use Rattle.std.specs.Option.{option_map};
ghost use Rattle.rule_defs.specs.Rules.{BeginEnd};
ghost use Rattle.rule_table.specs.Fits.{HasRoom, IsEntry, IsRule};
ghost use Rattle.rule_table.specs.Views.{entry_of, rule_of, slot_of};
ghost use Rattle.line_search.specs.Machines.{kind_at};

use onig_parse::PatternReader;
use rule_table::{
    Injections, Rule, RuleCapture, RuleCaptures, RuleId, RuleIds, RuleKind, RuleTable, ScopeText,
    Slot,
};
use std::alloc::{AllocError, Global};
use std::rc::Rc;
use text_pos::Name;

/// The most groups of a pattern of these tests.
pub const GROUPS: u32 = 9;

/// What is done with a group's capture.
#[derive(Clone, Copy)]
pub struct Entry<'a> {
    pub number: u32,
    pub name: &'a str,
    pub inner: Option<u32>,
}

/// A rule, as a row of a table of a test. An empty text is none.
#[derive(Clone, Copy)]
pub struct Row<'a> {
    pub kind: RuleKind,
    pub name: &'a str,
    pub content: &'a str,
    pub start: &'a str,
    pub finish: &'a str,
    pub last: bool,
    pub start_captures: &'a [Entry<'a>],
    pub finish_captures: &'a [Entry<'a>],
    pub active: &'a [u32],
}

fn scope_text(alloc: Global, text: &str) -> Result<Option<ScopeText>, AllocError> {
    if text.is_empty() {
        return Ok(None);
    }
    Ok(Some(ScopeText::of(alloc, text)?))
}

/// The pattern of a text. One that is refused, or has too many groups, never matches.
fn slot(alloc: Global, reader: &mut PatternReader, text: &str) -> Result<Slot, AllocError>
    ensures { IfOk result (λ slot. HasRoom GROUPS (slot_of slot)) }
{
    if text.is_empty() {
        return Ok(Slot::Never);
    }
    match reader.read(text) {
        Ok(pattern) => {
            if pattern.groups() > GROUPS {
                return Ok(Slot::Never);
            }
            Ok(Slot::Read(Rc::new(alloc, pattern)?))
        }
        Err(_) => Ok(Slot::Never),
    }
}

/// The pattern of an `end` or `while`. One with a first back reference is read later.
fn finish_slot(alloc: Global, reader: &mut PatternReader, text: &str) -> Result<Slot, AllocError>
    ensures { IfOk result (λ slot. HasRoom GROUPS (slot_of slot)) }
{
    if text.contains("\\1") {
        return Ok(Slot::Later {
            text: Name::of(alloc, text)?,
            groups: GROUPS,
        });
    }
    slot(alloc, reader, text)
}

/// The numbers of a row that are below the count of rules.
fn active_ids(alloc: Global, row: &Row<'_>, count: u32) -> Result<RuleIds, AllocError>
    ensures { IfOk result (λ ids. All (λ id. id < count) (map (λ id. id.0) ids)) }
{
    let mut ids = RuleIds::new(alloc);
    for id in row.active {
        if *id < count {
            ids.push(RuleId(*id))?;
        }
    }
    Ok(ids)
}

/// A number that is below the count of rules.
fn inner_id(id: Option<u32>, count: u32) -> Option<RuleId>
    ensures { IfSome (option_map (λ id. id.0) result) (λ id. id < count) }
{
    match id {
        Some(id) if id < count => Some(RuleId(id)),
        _ => None,
    }
}

fn rule_capture(alloc: Global, entry: &Entry<'_>, count: u32) -> Result<RuleCapture, AllocError>
    ensures { IfOk result (λ entry. IsEntry count (entry_of entry)) }
{
    Ok(RuleCapture {
        number: entry.number,
        name: scope_text(alloc, entry.name)?,
        content: None,
        inner: inner_id(entry.inner, count),
    })
}

fn entries(alloc: Global, rows: &[Entry<'_>], count: u32) -> Result<RuleCaptures, AllocError>
    ensures { IfOk result (λ all. All (IsEntry count) (map entry_of all)) }
{
    let mut all = RuleCaptures::new(alloc);
    for row in rows {
        all.push(rule_capture(alloc, row, count)?)?;
    }
    Ok(all)
}

fn rule(
    alloc: Global,
    reader: &mut PatternReader,
    row: &Row<'_>,
    count: u32,
) -> Result<Rule, AllocError>
    ensures { IfOk result (λ rule. IsRule count GROUPS (rule_of rule)) }
{
    let start = slot(alloc, reader, row.start)?;
    let finish = finish_slot(alloc, reader, row.finish)?;
    let active = active_ids(alloc, row, count)?;
    let start_captures = entries(alloc, row.start_captures, count)?;
    let finish_captures = entries(alloc, row.finish_captures, count)?;
    let name = scope_text(alloc, row.name)?;
    let content = scope_text(alloc, row.content)?;
    Ok(Rule {
        kind: row.kind,
        name,
        content,
        start,
        finish,
        finish_last: row.last,
        start_captures,
        finish_captures,
        active,
    })
}

/// The table of some rows, of which there are 1 to 1,000.
pub fn table(alloc: Global, rows: &[Row<'_>]) -> Result<RuleTable, AllocError>
    ensures { IfOk result (λ table. table.groups ≡ GROUPS) }
{
    if rows.is_empty() || rows.len() > 1000 {
        return Err(AllocError);
    }
    let count = rows.len() as u32;
    let mut reader = PatternReader::new(alloc);
    let mut rules = Vec::with_capacity(alloc, rows.len())?;
    for row in rows {
        rules.push(rule(alloc, &mut reader, row, count)?)?;
    }
    Ok(RuleTable::of(rules, Injections::new(alloc), GROUPS))
}

/// Whether the top is no begin/end rule.
pub fn has_root(table: &RuleTable) -> bool
    ensures { IsTrue result → kind_at table.now 0 ≢ BeginEnd }
{
    let _count = table.len();
    match table.rule(RuleId(0)).kind {
        RuleKind::BeginEnd => false,
        _ => true,
    }
}

pub fn capture<'a>(number: u32, name: &'a str) -> Entry<'a> {
    Entry {
        number,
        name,
        inner: None,
    }
}

/// A capture with the patterns of a rule.
pub fn inside<'a>(number: u32, name: &'a str, rule: u32) -> Entry<'a> {
    Entry {
        number,
        name,
        inner: Some(rule),
    }
}

pub fn group<'a>(active: &'a [u32]) -> Row<'a> {
    Row {
        kind: RuleKind::Group,
        name: "",
        content: "",
        start: "",
        finish: "",
        last: false,
        start_captures: &[],
        finish_captures: &[],
        active,
    }
}

pub fn single<'a>(name: &'a str, start: &'a str, start_captures: &'a [Entry<'a>]) -> Row<'a> {
    Row {
        kind: RuleKind::Match,
        name,
        start,
        start_captures,
        ..group(&[])
    }
}

pub fn block<'a>(name: &'a str, start: &'a str, finish: &'a str, active: &'a [u32]) -> Row<'a> {
    Row {
        kind: RuleKind::BeginEnd,
        name,
        start,
        finish,
        ..group(active)
    }
}

pub fn lasting<'a>(name: &'a str, start: &'a str, finish: &'a str, active: &'a [u32]) -> Row<'a> {
    Row {
        kind: RuleKind::BeginWhile,
        ..block(name, start, finish, active)
    }
}

pub fn with_content<'a>(content: &'a str, row: Row<'a>) -> Row<'a> {
    Row { content, ..row }
}

pub fn with_starts<'a>(start_captures: &'a [Entry<'a>], row: Row<'a>) -> Row<'a> {
    Row {
        start_captures,
        ..row
    }
}

pub fn with_ends<'a>(finish_captures: &'a [Entry<'a>], row: Row<'a>) -> Row<'a> {
    Row {
        finish_captures,
        ..row
    }
}

pub fn end_last<'a>(row: Row<'a>) -> Row<'a> {
    Row { last: true, ..row }
}
