ghost use Rattle.std.specs.Prelude.{◌≡◌, ◌<◌, ◌≤◌, length, map, All, IfOk};
ghost use Rattle.rule_table.specs.Fits.{HasRoom, IsRule};
ghost use Rattle.rule_table.specs.Views.{rule_of, slot_of};

use onig_parse::PatternReader;
use rule_table::{Injections, Rule, RuleCaptures, RuleId, RuleIds, RuleKind, RuleTable, Slot};
use std::alloc::{AllocError, Global};
use std::rc::Rc;
use text_pos::Name;

/// The most groups of a pattern of these tests.
pub(crate) const GROUPS: u32 = 9;

/// The end of a rule: none, or one that is read, or one whose text is made of captures, with at most so many groups.
pub(crate) enum Finish {
    None,
    Fixed(&'static str),
    Late(u32),
}

/// A rule, as a row of a table of a test. An empty start is none.
pub(crate) struct Row {
    pub kind: RuleKind,
    pub start: &'static str,
    pub finish: Finish,
    pub last: bool,
    pub active: &'static [u32],
}

/// The pattern of a text. One that is refused, or has too many groups, never matches.
fn slot(alloc: Global, reader: &mut PatternReader, text: &str) -> Result<Slot, AllocError>
    ensures { IfOk result (λ slot. HasRoom GROUPS (slot_of slot)) }
{
    match reader.read(text) {
        Ok(pattern) => {
            if pattern.groups() > GROUPS {
                return Ok(Slot::Never);
            }
            Ok(Slot::Read(Rc::new(alloc, pattern)?))
        }
        Err(_) => Ok(Slot::Never),
    }
}

fn start_slot(alloc: Global, reader: &mut PatternReader, row: &Row) -> Result<Slot, AllocError>
    ensures { IfOk result (λ slot. HasRoom GROUPS (slot_of slot)) }
{
    if row.start.is_empty() {
        return Ok(Slot::Never);
    }
    slot(alloc, reader, row.start)
}

fn finish_slot(alloc: Global, reader: &mut PatternReader, row: &Row) -> Result<Slot, AllocError>
    ensures { IfOk result (λ slot. HasRoom GROUPS (slot_of slot)) }
{
    match row.finish {
        Finish::None => Ok(Slot::Never),
        Finish::Fixed(text) => slot(alloc, reader, text),
        Finish::Late(groups) => Ok(Slot::Later {
            text: Name::of(alloc, "\\1")?,
            groups: groups.min(GROUPS),
        }),
    }
}

/// The numbers of a row that are below the count of rules.
fn active_ids(alloc: Global, row: &Row, count: u32) -> Result<RuleIds, AllocError>
    ensures { IfOk result (λ ids. All (λ id. id < count) (map (λ id. id.0) ids)) }
{
    let mut ids = RuleIds::new(alloc);
    for id in row.active {
        if *id < count {
            ids.push(RuleId(*id))?;
        }
    }
    Ok(ids)
}

fn rule(
    alloc: Global,
    reader: &mut PatternReader,
    row: &Row,
    count: u32,
) -> Result<Rule, AllocError>
    ensures { IfOk result (λ rule. IsRule count GROUPS (rule_of rule)) }
{
    let start = start_slot(alloc, reader, row)?;
    let finish = finish_slot(alloc, reader, row)?;
    let active = active_ids(alloc, row, count)?;
    Ok(Rule {
        kind: row.kind,
        name: None,
        content: None,
        start,
        finish,
        finish_last: row.last,
        start_captures: RuleCaptures::new(alloc),
        finish_captures: RuleCaptures::new(alloc),
        active,
    })
}

/// The table of some rows, of which there are 1 to 1,000.
pub(crate) fn table(alloc: Global, rows: &[Row]) -> Result<Rc<RuleTable>, AllocError>
    ensures { IfOk result (λ table. table.value.groups ≡ GROUPS) }
{
    if rows.is_empty() || rows.len() > 1000 {
        return Err(AllocError);
    }
    let count = rows.len() as u32;
    let mut reader = PatternReader::new(alloc);
    let mut rules = Vec::with_capacity(alloc, rows.len())?;
    for row in rows {
        rules.push(rule(alloc, &mut reader, row, count)?)?;
    }
    Ok(Rc::new(alloc, RuleTable::of(rules, Injections::new(alloc), GROUPS))?)
}
