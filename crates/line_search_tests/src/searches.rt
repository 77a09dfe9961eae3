ghost use Rattle.std.specs.Prelude.{◌≡◌, IsTrue};
ghost use Rattle.rule_defs.specs.Rules.{BeginWhile};
ghost use Rattle.line_search.specs.Machines.{kind_at};

use crate::rows::{Finish, GROUPS, Row, table};
use line_search::{Find, Of, Searcher};
use onig_match::Work;
use pattern_defs::Flags;
use rule_table::{RuleId, RuleKind};
use scope_stack::{EndText, Frame, Scopes};
use std::alloc::{AllocError, Global};
use std::test::Fail;

/// The root, a begin/end rule, one whose end comes last, one whose end is late, the same with its end last, one that
/// goes on while its pattern is found, and the rules inside them.
const RULES: [Row; 13] = [
    Row {
        kind: RuleKind::Group,
        start: "",
        finish: Finish::None,
        last: false,
        active: &[7, 8, 9],
    },
    Row {
        kind: RuleKind::BeginEnd,
        start: "\\(",
        finish: Finish::Fixed("\\)|b"),
        last: false,
        active: &[7, 8],
    },
    Row {
        kind: RuleKind::BeginEnd,
        start: "\\[",
        finish: Finish::Fixed("\\]|b"),
        last: true,
        active: &[7, 8],
    },
    Row {
        kind: RuleKind::BeginEnd,
        start: "<<(\\w+)",
        finish: Finish::Late(1),
        last: false,
        active: &[7, 8],
    },
    Row {
        kind: RuleKind::BeginEnd,
        start: "<-(\\w+)",
        finish: Finish::Late(1),
        last: true,
        active: &[7, 8],
    },
    Row {
        kind: RuleKind::BeginWhile,
        start: "^>",
        finish: Finish::Fixed("^(>) ?"),
        last: false,
        active: &[7],
    },
    Row {
        kind: RuleKind::BeginWhile,
        start: "^(%)",
        finish: Finish::Late(0),
        last: false,
        active: &[7],
    },
    Row {
        kind: RuleKind::Match,
        start: "a(b)?",
        finish: Finish::None,
        last: false,
        active: &[],
    },
    Row {
        kind: RuleKind::Match,
        start: "b",
        finish: Finish::None,
        last: false,
        active: &[],
    },
    Row {
        kind: RuleKind::Match,
        start: "\\Gc",
        finish: Finish::None,
        last: false,
        active: &[],
    },
    Row {
        kind: RuleKind::Group,
        start: "",
        finish: Finish::None,
        last: false,
        active: &[9],
    },
    Row {
        kind: RuleKind::Group,
        start: "",
        finish: Finish::None,
        last: false,
        active: &[12, 11, 7, 900],
    },
    Row {
        kind: RuleKind::Match,
        start: "(",
        finish: Finish::None,
        last: false,
        active: &[],
    },
];

fn frame(alloc: Global, rule: u32, end: &str) -> Result<Frame, AllocError> {
    let end = if end.is_empty() {
        EndText::none()
    } else {
        EndText::of(alloc, end)?
    };
    Ok(Frame {
        rule: RuleId(rule),
        enter: None,
        anchor: None,
        took_end: false,
        end,
        name: Scopes::empty(),
        content: Scopes::empty(),
    })
}

/// A find, with what the groups of a match took.
fn shown(alloc: Global, find: &Find, work: &Work) -> Result<String, AllocError> {
    let Find::At(found) = find else {
        return format!(in alloc; "{find:?}");
    };
    let (from, to) = (found.from, found.to);
    let mut all = match found.of {
        Of::End => format!(in alloc; "end {from}-{to}")?,
        Of::Rule(id) => {
            let number = id.0;
            format!(in alloc; "{number} {from}-{to}")?
        }
    };
    for n in 1..=work.groups() {
        match work.capture(n) {
            Some(place) => {
                let (from, to) = (place.from, place.to);
                let one = format!(in alloc; " {from}-{to}")?;
                all.push_str(one.as_str())?;
            }
            None => all.push_str(" .")?,
        }
    }
    Ok(all)
}

/// A search in a frame: its rule and its end text, a text from a place, whether `\G` holds there, and the budget.
#[derive(Clone, Copy)]
struct Case {
    rule: u32,
    end: &'static str,
    text: &'static str,
    from: u32,
    anchored: bool,
    budget: u32,
}

/// What the patterns of the frame find, and what its `while` does where it has one.
fn answer(alloc: Global, searcher: &mut Searcher, case: &Case) -> Result<String, AllocError> {
    let text: Vec<char> = case.text.chars().collect(alloc)?;
    let text = text.as_slice();
    if text.len() > 1000 || case.from as usize > text.len() || searcher.groups() > GROUPS {
        return format!(in alloc; "out of range");
    }
    let frame = frame(alloc, case.rule, case.end)?;
    let flags = Flags {
        first: false,
        anchor: if case.anchored { Some(case.from) } else { None },
    };
    let mut work = Work::new(alloc, case.budget, GROUPS)?;
    let find = searcher.ordinary(&mut work, &frame, text, case.from, flags)?;
    shown(alloc, &find, &work)
}

/// Whether the rule of a frame is there and goes on while its pattern is found.
fn goes_on(searcher: &Searcher, frame: &Frame) -> bool
    ensures { IsTrue result → kind_at searcher.now frame.now.rule ≡ BeginWhile }
{
    let table = searcher.table();
    frame.rule.0 < table.len() && table.rule(frame.rule).kind == RuleKind::BeginWhile
}

/// What the `while` pattern of the frame finds, where its rule has one.
fn while_answer(alloc: Global, searcher: &mut Searcher, case: &Case) -> Result<String, AllocError> {
    let text: Vec<char> = case.text.chars().collect(alloc)?;
    let text = text.as_slice();
    if text.len() > 1000 || case.from as usize > text.len() || searcher.groups() > GROUPS {
        return format!(in alloc; "out of range");
    }
    let frame = frame(alloc, case.rule, case.end)?;
    if !goes_on(searcher, &frame) {
        return format!(in alloc; "no while");
    }
    let flags = Flags {
        first: false,
        anchor: None,
    };
    let mut work = Work::new(alloc, case.budget, GROUPS)?;
    let find = searcher.while_found(&mut work, &frame, text, case.from, flags)?;
    shown(alloc, &find, &work)
}

const fn plain(rule: u32, end: &'static str, text: &'static str, from: u32) -> Case {
    Case {
        rule,
        end,
        text,
        from,
        anchored: false,
        budget: 2000,
    }
}

const fn anchored(rule: u32, text: &'static str, from: u32) -> Case {
    Case {
        rule,
        end: "",
        text,
        from,
        anchored: true,
        budget: 2000,
    }
}

const fn within(budget: u32, rule: u32, end: &'static str, text: &'static str) -> Case {
    Case {
        rule,
        end,
        text,
        from: 0,
        anchored: false,
        budget,
    }
}

#[test]
fn frames_find_the_first_match_of_their_patterns(rt: HostRuntime) -> Result<(), Fail> {
    let mut searcher = Searcher::new(rt.alloc(), table(rt.alloc(), &RULES)?)?;
    for (case, wanted) in [
        (plain(0, "", "xab", 0), "7 1-3 2-3"),
        (plain(0, "", "xa", 0), "7 1-2 ."),
        (plain(0, "", "ba", 1), "7 1-2 ."),
        (plain(0, "", "ab", 2), "Nothing"),
        (plain(0, "", "c", 0), "Nothing"),
        (anchored(0, "c", 0), "9 0-1"),
        (anchored(0, "xc", 1), "9 1-2"),
        // `\G` holds at its place alone
        (anchored(0, "xc", 0), "Nothing"),
        (anchored(10, "c", 0), "9 0-1"),
        // an end stands before the patterns inside, or behind them
        (plain(1, "", "xb", 0), "end 1-2"),
        (plain(1, "", "ab)", 0), "7 0-2 1-2"),
        (plain(2, "", "xb", 0), "8 1-2"),
        (plain(2, "", "x]b", 0), "end 1-2"),
        // an end that no rule has is not searched, and neither is that of a `while`
        (plain(0, "x", "x", 0), "Nothing"),
        (plain(5, "", "> a", 0), "7 2-3 ."),
        (plain(6, "%", "%", 0), "Nothing"),
        // rules whose patterns are missing or refused match nothing
        (plain(11, "", "(a", 0), "7 1-2 ."),
        (plain(7, "", "a", 0), "Nothing"),
        (plain(13, "", "a", 0), "Nothing"),
        (plain(4_000_000_000, "", "a", 0), "Nothing"),
        (within(0, 0, "", "ab"), "Spent"),
        (within(0, 10, "", ""), "Spent"),
        (within(0, 7, "", "a"), "Nothing"),
    ] {
        assert_eq!(rt; answer(rt.alloc(), &mut searcher, &case)?.as_str(), wanted);
    }
    Ok(())
}

#[test]
fn ends_whose_texts_are_made_of_captures_stand_in_the_same_order(
    rt: HostRuntime,
) -> Result<(), Fail> {
    let mut searcher = Searcher::new(rt.alloc(), table(rt.alloc(), &RULES)?)?;
    for (case, wanted) in [
        (plain(3, "EOT", "a EOT", 0), "7 0-1 ."),
        (plain(3, "EOT", "EOT", 0), "end 0-3"),
        (plain(3, "END", "EOT END", 0), "end 4-7"),
        (plain(3, "EOT", "EOT END", 0), "end 0-3"),
        (plain(3, "", "EOT b", 0), "8 4-5"),
        (plain(3, "b", "xb", 0), "end 1-2"),
        (plain(4, "b", "xb", 0), "8 1-2"),
        (plain(4, "b", "xbb", 2), "8 2-3"),
        (plain(4, "x", "axb", 0), "7 0-1 ."),
        (plain(4, "x", "axb", 1), "end 1-2"),
        (plain(3, "b", "ab", 0), "7 0-2 1-2"),
        // what the end captured stands, though the patterns inside match behind it
        (plain(3, "(x)", "xab", 0), "end 0-1 0-1"),
        (plain(4, "(x)", "xab", 0), "end 0-1 0-1"),
        (plain(4, "(b)", "xab", 0), "7 1-3 2-3"),
        // too many groups, and a text that is refused
        (plain(3, "(b)(c)", "xbc", 0), "8 1-2"),
        (plain(3, "(", "x(b", 0), "8 2-3"),
        (plain(3, "(b)", "xbc", 0), "end 1-2 1-2"),
        // a spent attempt decides by its place, and at a place by its order
        (within(5, 3, "x*y", "xxxxxb"), "Spent"),
        (within(5, 4, "x*y", "xxxxxb"), "Spent"),
        (within(5, 3, "x*y", "bxxxxx"), "8 0-1"),
        (within(5, 4, "x*y", "bxxxxx"), "8 0-1"),
        (within(2000, 3, "x*y", "xxxxxb"), "8 5-6"),
    ] {
        assert_eq!(rt; answer(rt.alloc(), &mut searcher, &case)?.as_str(), wanted);
    }
    Ok(())
}

#[test]
fn while_patterns_are_searched_by_themselves(rt: HostRuntime) -> Result<(), Fail> {
    let mut searcher = Searcher::new(rt.alloc(), table(rt.alloc(), &RULES)?)?;
    for (case, wanted) in [
        (plain(5, "", "> a", 0), "end 0-2 0-1"),
        (plain(5, "", "a", 0), "Nothing"),
        (plain(5, "", ">>", 1), "Nothing"),
        (plain(6, "%%", "%%x", 0), "end 0-2"),
        (plain(6, "%", "x%", 0), "end 1-2"),
        (plain(6, "", "%", 0), "Nothing"),
        (plain(6, "(%)", "%", 0), "Nothing"),
        (within(0, 5, "", ">"), "Spent"),
        (plain(1, "", ")", 0), "no while"),
        (plain(13, "", ">", 0), "no while"),
    ] {
        assert_eq!(rt;
            while_answer(rt.alloc(), &mut searcher, &case)?.as_str(),
            wanted
        );
    }
    Ok(())
}
