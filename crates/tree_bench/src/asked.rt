//! Questions at places all over a text.
ghost use Rattle.bracket_ast.specs.Shapes.{or_nothing};
ghost use Rattle.tree_queries.specs.Told.{IsPlaced};

use crate::{nanoseconds, tell};
use anyhow::Result;
use bracket_ast::Tree;
use line_text::Text;
use text_pos::Pos;
use tree_queries::{Twin, around, jump, level_at, match_at};

/// How many places are asked.
const PLACES: u32 = 20_000;

/// Whether places lie one behind the other, or scattered.
#[derive(Clone, Copy)]
struct Asked {
    lines: u32,
    scattered: bool,
}

/// A place for each number, in all parts of a text.
fn place(number: u32, asked: Asked) -> Pos {
    let state = number.wrapping_mul(2_654_435_761);
    let line = if asked.lines == 0 {
        0
    } else if asked.scattered {
        (state >> 7) % asked.lines
    } else {
        (number / 8) % asked.lines
    };
    Pos {
        line,
        col: (state >> 3) % 64,
    }
}

fn start_of(twin: Option<Twin>) -> u64 {
    match twin {
        Some(twin) => u64::from(twin.second.from.line).saturating_add(u64::from(
            twin.second.from.col,
        )),
        None => 1,
    }
}

fn levels(tree: &Tree, asked: Asked) -> u64
    requires { IsPlaced (or_nothing tree.now.root) }
{
    let mut sum = 0u64;
    for number in 0..PLACES {
        sum = sum.wrapping_add(u64::from(level_at(tree, place(number, asked))));
    }
    sum
}

fn matches(tree: &Tree, asked: Asked) -> u64
    requires { IsPlaced (or_nothing tree.now.root) }
{
    let mut sum = 0u64;
    for number in 0..PLACES {
        sum = sum.wrapping_add(start_of(match_at(tree, place(number, asked))));
    }
    sum
}

fn arounds(tree: &Tree, asked: Asked) -> u64
    requires { IsPlaced (or_nothing tree.now.root) }
{
    let mut sum = 0u64;
    for number in 0..PLACES {
        sum = sum.wrapping_add(start_of(around(tree, place(number, asked))));
    }
    sum
}

fn jumps(tree: &Tree, asked: Asked) -> u64
    requires { IsPlaced (or_nothing tree.now.root) }
{
    let mut sum = 0u64;
    for number in 0..PLACES {
        sum = sum.wrapping_add(match jump(tree, place(number, asked)) {
            Some(at) => u64::from(at.line).saturating_add(u64::from(at.col)),
            None => 1,
        });
    }
    sum
}

fn took(rt: &HostRuntime, start: u64, timed: bool) -> Result<Option<u64>> {
    let now = nanoseconds(rt)?;
    Ok(timed.then_some(now.saturating_sub(start)))
}

/// Each question at places one behind the other, and then at scattered places.
pub(crate) fn ask_all(rt: &HostRuntime, tree: &Tree, text: &Text, timed: bool) -> Result<()>
    requires { IsPlaced (or_nothing tree.now.root) }
{
    let lines = text.lines();
    for scattered in [false, true] {
        let asked = Asked { lines, scattered };
        println!(rt; "scattered {}", u64::from(scattered))?;
        let start = nanoseconds(rt)?;
        let sum = levels(tree, asked);
        tell(rt, "level", sum, took(rt, start, timed)?)?;
        let start = nanoseconds(rt)?;
        let sum = matches(tree, asked);
        tell(rt, "match", sum, took(rt, start, timed)?)?;
        let start = nanoseconds(rt)?;
        let sum = arounds(tree, asked);
        tell(rt, "around", sum, took(rt, start, timed)?)?;
        let start = nanoseconds(rt)?;
        let sum = jumps(tree, asked);
        tell(rt, "jump", sum, took(rt, start, timed)?)?;
    }
    Ok(())
}
