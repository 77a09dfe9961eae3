//! Reading a class from its bracket on.

ghost use Rattle.std.specs.Prelude.{◌≡◌, ◌<◌, ◌≤◌, ◌+◌, ◌-◌, true, length, drop, slice_get, IfOk, if◌then◌else◌};
ghost use Rattle.char_sets.specs.Ranges.{IsSetOf};
ghost use Rattle.syntax_defs.specs.Reading.{Gives};
ghost use Rattle.syntax_defs.specs.Classes.{no_members, part_at, members_at, class_within, class_at};
ghost use Rattle.syntax_defs.specs.Sights.{begins_with};
ghost use Rattle.onig_class.specs.SidesFit.{needs};
ghost use Rattle.syntax_defs.specs.Limits.{most_pattern_chars, most_levels};

use crate::items::{begins_with, bracket_at, member_at, placed};
use crate::sets::complement_if;
use crate::sides::Sides;
use char_sets::{CharSet, NamedSets};
use std::alloc::Global;
use syntax_defs::{ClassPart, MOST_LEVELS, PatternRefusal};

/// What stands next in a class.
#[tactic(auto, unfolding(syntax_defs::specs::Classes::part_at))]
fn part_at(text: &[char], at: usize, first: bool) -> ClassPart
    requires { at ≤ length text.now }
    ensures value { result ≡ part_at first (drop at text.now) }
    ensures inside { at + needs result ≤ length text.now }
{
    match &text[at..] {
        [] => ClassPart::End,
        [']', ..] if !first => ClassPart::Close,
        ['&', behind @ ..] if begins_with(behind, '&') => ClassPart::And,
        ['[', behind @ ..] if bracket_at(behind).is_none() => ClassPart::Class,
        [_, ..] => ClassPart::Member,
    }
}

/// Whether a class is a complement, and where its members begin.
fn opening(text: &[char], at: usize) -> (bool, usize)
    requires there { at < length text.now }
    requires short { length text.now ≤ most_pattern_chars }
    ensures negated { result.0 ≡ begins_with 94 (drop (at + 1) text.now) }
    ensures start { result.1 ≡ at + (if result.0 then 2 else 1) }
    ensures inside { result.1 ≤ length text.now }
{
    match &text[at + 1..] {
        ['^', ..] => (true, at + 2),
        _ => (false, at + 1),
    }
}

/// The members of a class that begins at `from`, from `start` up to its `]`.
#[cycle(class)]
fn members(
    alloc: Global,
    sets: &mut NamedSets,
    text: &[char],
    from: usize,
    start: usize,
    fold: bool,
    levels: u32,
) -> Result<(CharSet, usize), PatternRefusal>
    requires before { from < start }
    requires there { start ≤ length text.now }
    requires short { length text.now ≤ most_pattern_chars }
    requires few { levels ≤ most_levels }
    ensures value { Gives IsSetOf text.now result (members_at (class_within levels fold) fold true
        (length (drop from text.now)) no_members start (drop start text.now)) }
    ensures place { IfOk result (λ found. (start < found.1) × (found.1 ≤ length text.now)) }
{
    let mut sides = Sides::none(alloc);
    let mut at = start;
    let mut first = true;
    loop {
        match part_at(text, at, first) {
            ClassPart::End => return Err(PatternRefusal::Syntax { at: at as u64 }),
            ClassPart::Close => return placed(sides.together(alloc), at + 1),
            ClassPart::And => {
                sides = sides.next_side(alloc)?;
                at += 2;
            }
            ClassPart::Class => {
                let (set, next) = class_within(alloc, sets, text, at, fold, levels)?;
                sides = sides.with_member(alloc, set)?;
                at = next;
            }
            ClassPart::Member => {
                let (set, next) = member_at(alloc, sets, text, at, fold)?;
                sides = sides.with_member(alloc, set)?;
                at = next;
            }
        }
        first = false;
    }
}

/// A class from its `[` on, where so many levels of classes may still be opened.
#[cycle(class)]
fn class_within(
    alloc: Global,
    sets: &mut NamedSets,
    text: &[char],
    at: usize,
    fold: bool,
    levels: u32,
) -> Result<(CharSet, usize), PatternRefusal>
    requires there { at < length text.now }
    requires short { length text.now ≤ most_pattern_chars }
    requires few { levels ≤ most_levels }
    ensures value { Gives IsSetOf text.now result (class_within levels fold at (drop at text.now)) }
    ensures place { IfOk result (λ found. (at < found.1) × (found.1 ≤ length text.now)) }
{
    if levels == 0 {
        return Err(PatternRefusal::TooDeep {
            depth: u64::from(MOST_LEVELS) + 1,
        });
    }
    let (negated, start) = opening(text, at);
    let (set, next) = members(alloc, sets, text, at, start, fold, levels - 1)?;
    placed(complement_if(alloc, set, negated), next)
}

/// A class from its `[` at `at` on, and the place behind it. So many groups and classes are open round it. Under
/// `fold` letters stand for both of their ASCII cases.
pub fn read_class(
    alloc: Global,
    sets: &mut NamedSets,
    text: &[char],
    at: usize,
    fold: bool,
    depth: u32,
) -> Result<(CharSet, usize), PatternRefusal>
    requires there { slice_get text.now at ≡ Some 91 }
    requires short { length text.now ≤ most_pattern_chars }
    requires few { depth ≤ most_levels }
    ensures value { Gives IsSetOf text.now result (class_at fold depth at (drop at text.now)) }
    ensures place { IfOk result (λ found. (at < found.1) × (found.1 ≤ length text.now)) }
{
    class_within(alloc, sets, text, at, fold, MOST_LEVELS - depth)
}
