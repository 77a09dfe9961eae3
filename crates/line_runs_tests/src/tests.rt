//! Tests that show that another object gives the tokens of a line.

ghost use Rattle.std.specs.Prelude.{◌≡◌, ◌<◌};

use crate::first::first_line;
use crate::whole::Whole;
use line_runs::Limits;
use line_text::{Line, Text};
use onig_match::Work;
use scope_names::Scopes;
use scope_stack::{EndText, Frame, RuleId, Stack, State};
use std::alloc::{AllocError, Global};
use std::marker::Brand;
use std::sync::ledger::{Blank, Ledger};
use std::test::Fail;
use step_count::Steps;
use text_defs::MOST_CHARS;

const LIMITS: Limits = Limits {
    nesting: 9,
    budget: 10,
    long: 100,
    tab: 4,
};

/// The root of a grammar without a name.
fn root(alloc: Global) -> Result<State, AllocError> {
    let frame = Frame {
        rule: RuleId(0),
        enter: None,
        anchor: None,
        took_end: false,
        end: EndText::none(),
        name: Scopes::empty(),
        content: Scopes::empty(),
    };
    Ok(State::new(Stack::root(alloc, frame)?, true))
}

/// Where the only token of a line ends.
fn end_of<L: Ledger>(alloc: Global, line: &Line, blank: Blank) -> Result<Option<u32>, AllocError>
    requires name { blank.name ≡ L.name }
    requires parts { blank.parts ≡ L.parts }
    requires some { 0 < blank.parts }
{
    if line.chars().len() > MOST_CHARS as usize {
        return Ok(None);
    }
    let mut steps = Steps::<L>::begin(blank);
    let mut runs = Whole::new(alloc, LIMITS, root(alloc)?);
    let mut work = Work::new(alloc, LIMITS.budget, 0)?;
    let tokens = first_line(&mut runs, &mut work, line, &mut steps)?;
    match tokens.tokens().as_slice() {
        [token] => Ok(Some(token.to)),
        _ => Ok(None),
    }
}

#[test]
fn another_object_gives_the_tokens_of_a_line(rt: HostRuntime) -> Result<(), Fail> {
    let alloc = rt.alloc();
    let end = match Text::from_bytes(alloc, b"abc\nd") {
        Ok(text) => end_of::<Brand>(alloc, text.line(text.lines() - 1), Blank::new(1))?,
        Err(_) => None,
    };
    assert_eq!(rt; end, Some(1));
    Ok(())
}
