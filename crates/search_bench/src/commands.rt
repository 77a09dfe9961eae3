//! Reads commands, and tells counts of matches, and times where they are wanted.

ghost use Rattle.std.specs.Prelude.{◌≡◌, ◌≤◌, All};

use crate::given::Given;
use crate::search::{next_match, search};
use crate::tally::{NONE_YET, Tally, ends};
use anyhow::Result;
use onig_match::Work;
use onig_scan::Scanner;
use std::rt::CpuClock;

/// How many visits an attempt may take.
const BUDGET: u32 = 500_000;

fn nanoseconds(rt: &HostRuntime) -> Result<u64> {
    let nanos = rt.thread_cpu_time()?.as_nanos();
    Ok(u64::try_from(nanos).unwrap_or(u64::MAX))
}

/// A line with what was counted, and with the time, where it is wanted.
fn tell(rt: &HostRuntime, name: &str, tally: Tally, time: Option<u64>) -> Result<()> {
    let Tally {
        searches,
        matches,
        spent,
        sum,
    } = tally;
    match time {
        Some(ns) => println!(rt;
            "{name} searches={searches} matches={matches} spent={spent} sum={sum:016x} ns={ns}"
        )?,
        None => println!(rt;
            "{name} searches={searches} matches={matches} spent={spent} sum={sum:016x}"
        )?,
    }
    Ok(())
}

/// Each pattern by itself.
fn each(rt: &HostRuntime, given: &Given, timed: bool) -> Result<()> {
    let alloc = rt.alloc();
    let mut tally = NONE_YET;
    let mut time = 0u64;
    for named in &given.patterns {
        let scanner = Scanner::new(alloc, [named.pattern.clone()?].as_slice())?;
        let mut work = Work::new(alloc, BUDGET, scanner.groups())?;
        let numbers = [named.number];
        let start = nanoseconds(rt)?;
        search(
            &scanner,
            &mut work,
            &given.lines,
            numbers.as_slice(),
            &mut tally,
        );
        time = time.saturating_add(nanoseconds(rt)?.saturating_sub(start));
    }
    tell(rt, "each", tally, timed.then_some(time))
}

/// All patterns as one scanner.
fn all(rt: &HostRuntime, given: &Given, timed: bool) -> Result<()> {
    let alloc = rt.alloc();
    let mut tally = NONE_YET;
    let numbers = given.numbers(alloc)?;
    let scanner = given.scanner(alloc)?;
    let mut work = Work::new(alloc, BUDGET, scanner.groups())?;
    let start = nanoseconds(rt)?;
    search(
        &scanner,
        &mut work,
        &given.lines,
        numbers.as_slice(),
        &mut tally,
    );
    let time = nanoseconds(rt)?.saturating_sub(start);
    tell(rt, "all", tally, timed.then_some(time))
}

/// One match: the line's number, the pattern's, and the ends of what each group took.
fn tell_match(rt: &HostRuntime, row: usize, number: u64, work: &Work) -> Result<()> {
    let mut line = format!(in rt.alloc(); "{row} {number}")?;
    for group in 0..=work.groups() {
        let (from, to) = ends(work.capture(group));
        let part = if from == 0xffff_ffff {
            format!(in rt.alloc(); " -1 -1")?
        } else {
            format!(in rt.alloc(); " {from} {to}")?
        };
        line.push_str(part.as_str())?;
    }
    println!(rt; "{line}")?;
    Ok(())
}

/// Each match of all patterns as one scanner.
fn dump_with(rt: &HostRuntime, given: &Given, scanner: &Scanner, work: &mut Work) -> Result<()>
    requires room { All (λ tree. tree.groups ≤ work.old.room) scanner.now }
{
    let numbers = given.numbers(rt.alloc())?;
    let mut tally = NONE_YET;
    for (row, line) in given.lines.iter().enumerate() {
        let mut at = 0;
        for _ in 0..u32::MAX {
            let Some((index, next)) = next_match(scanner, work, line, at, &mut tally) else {
                break;
            };
            let number = numbers.get(index as usize).copied().unwrap_or(0);
            tell_match(rt, row, number, work)?;
            at = next;
        }
    }
    println!(rt; "end")?;
    Ok(())
}

fn dump(rt: &HostRuntime, given: &Given) -> Result<()> {
    let scanner = given.scanner(rt.alloc())?;
    let mut work = Work::new(rt.alloc(), BUDGET, scanner.groups())?;
    dump_with(rt, given, &scanner, &mut work)
}

/// Reads all patterns so often.
fn read_again(rt: &HostRuntime, given: &Given, times: u64, timed: bool) -> Result<()> {
    let start = nanoseconds(rt)?;
    let read = given.read_again(rt.alloc(), times);
    let time = nanoseconds(rt)?.saturating_sub(start);
    if timed {
        println!(rt; "read patterns={read} ns={time}")?;
    } else {
        println!(rt; "read patterns={read}")?;
    }
    Ok(())
}

/// A pattern with its number before it.
fn add_pattern(rt: &HostRuntime, given: &mut Given, line: &str) -> Result<()> {
    if let Some((number, field)) = line.split_once('\t') {
        let number = number.parse::<u64>().unwrap_or(0);
        if !given.add_pattern(rt.alloc(), number, field)? {
            println!(rt; "refused {number}")?;
        }
    }
    Ok(())
}

fn command(rt: &HostRuntime, given: &mut Given, line: &str, timed: bool) -> Result<()> {
    if let Some(pattern) = line.strip_prefix("p ") {
        return add_pattern(rt, given, pattern);
    }
    if let Some(text) = line.strip_prefix("t ") {
        given.add_line(rt.alloc(), text)?;
        return Ok(());
    }
    if let Some(times) = line.strip_prefix("R ") {
        return read_again(rt, given, times.parse::<u64>().unwrap_or(1), timed);
    }
    match line {
        "c" => {
            given.clear();
            Ok(())
        }
        "E" => each(rt, given, timed),
        "A" => all(rt, given, timed),
        "D" => dump(rt, given),
        _ => Ok(()),
    }
}

/// Obeys the commands of standard input.
pub(crate) fn run(rt: &HostRuntime, timed: bool) -> Result<()> {
    let mut given = Given::new(rt.alloc());
    for line in rt.lines(rt.alloc()) {
        let line = line?;
        command(rt, &mut given, line.as_str(), timed)?;
    }
    Ok(())
}
