//! Both parses and their times.
ghost use Rattle.std.specs.Prelude.{◌≡◌, ◌<◌, length};

use crate::nanoseconds;
use crate::rows::{Rows, rows_of};
use crate::telling::Telling;
use agreement_check::{Change, agreed, are_sound};
use anyhow::Result;
use bracket_lex::{LineMark, MarkLines};
use mark_source::MarkReader;
use reuse_parser::{parse, reparse};
use std::marker::Brand;
use std::sync::ledger::{Blank, Ledger};
use step_count::Steps;
use text_pos::Length;

/// The most pairs that may stand one in the other.
const LIMIT: u32 = 200;

/// How often each parse is made.
const TURNS: u32 = 5;

/// What a parse made, how many marks it read, and the least time that it took.
#[derive(Clone, Copy)]
struct Taken {
    rows: Rows,
    read: u64,
    nanos: u64,
}

fn tell(rt: &HostRuntime, name: &str, taken: Taken, timed: bool) -> Result<()> {
    let Taken { rows, read, nanos } = taken;
    if timed {
        println!(rt; "{name} {} {} {read} ns={nanos}", rows.count, rows.sum)?;
    } else {
        println!(rt; "{name} {} {} {read}", rows.count, rows.sum)?;
    }
    Ok(())
}

/// The tree of new lines, made of all marks and with nodes of that of old lines, which have one bracket more.
pub(crate) fn measure(
    rt: &HostRuntime,
    old: &MarkLines,
    new: &MarkLines,
    line: u32,
    mark: LineMark,
    timed: bool,
) -> Result<()>
    requires old { 0 < length old.now }
    requires new { 0 < length new.now }
{
    measure_counted::<Brand>(rt, old, new, line, mark, timed, Blank::new(1))
}

fn measure_counted<L: Ledger>(
    rt: &HostRuntime,
    old: &MarkLines,
    new: &MarkLines,
    line: u32,
    mark: LineMark,
    timed: bool,
    blank: Blank,
) -> Result<()>
    requires old { 0 < length old.now }
    requires new { 0 < length new.now }
    requires name { blank.name ≡ L.name }
    requires parts { blank.parts ≡ L.parts }
    requires some { 0 < blank.parts }
{
    if !are_sound(old) || !are_sound(new) {
        println!(rt; "no marks")?;
        return Ok(());
    }
    let change = Change {
        start: Length {
            lines: line,
            cols: mark.from,
        },
        old: Length {
            lines: 0,
            cols: mark.to.saturating_sub(mark.from),
        },
        new: Length { lines: 0, cols: 0 },
    };
    let Some(spans) = agreed(rt.alloc(), &[change], old, new)? else {
        println!(rt; "no agreement")?;
        return Ok(());
    };
    let mut steps = Steps::<L>::begin(blank);
    let mut reader = MarkReader::new(old);
    let tree = parse(rt.alloc(), &mut reader, LIMIT, &mut steps)?;
    for again in [false, true] {
        let mut taken = Taken {
            rows: Rows { count: 0, sum: 0 },
            read: 0,
            nanos: u64::MAX,
        };
        for _ in 0..TURNS {
            let mut source = Telling::new(new);
            let start = nanoseconds(rt)?;
            let made = if again {
                reparse(rt.alloc(), &tree, &spans, &mut source, LIMIT, &mut steps)?
            } else {
                parse(rt.alloc(), &mut source, LIMIT, &mut steps)?
            };
            let nanos = nanoseconds(rt)?.saturating_sub(start);
            taken = Taken {
                rows: rows_of(rt.alloc(), &made)?,
                read: source.given,
                nanos: taken.nanos.min(nanos),
            };
        }
        tell(rt, if again { "reparse" } else { "parse" }, taken, timed)?;
    }
    Ok(())
}
