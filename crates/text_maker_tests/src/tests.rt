//! Shows that generated texts and edits are as worked out, and that the largest text has all its lines.

ghost use Rattle.std.specs.Prelude.{◌≤◌};

use generator_defs::GENERATED_EDITS;
use line_text::{EditRefusal, Text};
use std::alloc::{AllocError, Global};
use std::test::Fail;
use text_maker::{made_edits_are_accepted, make_edit, make_text};

/// The lines, each with a bar behind it.
fn shown(alloc: Global, text: &Text) -> Result<String, AllocError> {
    let mut lines = String::new(alloc);
    for n in 0..text.lines() {
        for c in text.line(n).chars() {
            lines.push(*c)?;
        }
        lines.push('|')?;
    }
    Ok(lines)
}

/// Makes edit j of a text, or answers that the text refuses it.
fn edited(alloc: Global, n: u32, j: u32, text: &mut Text) -> Result<bool, AllocError>
    requires lines { n ≤ 100000 }
    requires edits { j ≤ 200 }
{
    let edit = make_edit(alloc, n, j, text)?;
    match text.apply(alloc, &[edit]) {
        Ok(_) => Ok(true),
        Err(EditRefusal::Memory(error)) => Err(error),
        Err(_) => Ok(false),
    }
}

#[test]
fn texts_are_as_worked_out(rt: HostRuntime) -> Result<(), Fail> {
    let rows = [
        (1, "[a)(}{ ][a)(|"),
        (2, "{ ][a)(}{ ][|})[ })[ })[ |"),
        (3, ")(}{ ][a)(}{|a]{(a]{(a]{(|[( a}]){[( a|"),
        (4, "][a)(}{ ][a)| })[ })[ })[|{[( a}]){[( |}}}}}}}}}}}}|"),
    ];
    for (n, lines) in rows {
        prove!(1 <= n && n <= 4);
        let text = make_text(rt.alloc(), n)?;
        assert_eq!(rt; shown(rt.alloc(), &text)?.as_str(), lines);
    }
    Ok(())
}

#[test]
fn the_largest_text_has_all_its_lines(rt: HostRuntime) -> Result<(), Fail> {
    let text = make_text(rt.alloc(), 100_000)?;
    assert_eq!(rt; text.lines(), 100_000);
    assert_eq!(rt; text.chars(), 1_299_999);
    Ok(())
}

#[test]
fn edits_are_as_worked_out(rt: HostRuntime) -> Result<(), Fail> {
    made_edits_are_accepted();
    let alloc = rt.alloc();
    let wanted = [
        "[a)(}{ ][a)a(|",
        "[a)(}{ ])[a)a(|",
        "[a)((}{ ])[a)a(|",
        "[a)((}{ ])[aa(|",
        "[a)((}{ ]){[aa(|",
        "[a )((}{ ]){[aa(|",
        "[a )((}{ |]){[aa(|",
        "[a )((}{|]){[aa(|",
    ];
    let mut text = make_text(alloc, 1)?;
    for (k, lines) in wanted.iter().enumerate() {
        assert!(rt; edited(alloc, 1, k as u32 + 1, &mut text)?);
        assert_eq!(rt; shown(alloc, &text)?.as_str(), *lines);
    }
    Ok(())
}

#[test]
fn an_eighth_of_the_edits_adds_a_line(rt: HostRuntime) -> Result<(), Fail> {
    let alloc = rt.alloc();
    let mut text = make_text(alloc, 5000)?;
    for k in 0..GENERATED_EDITS {
        assert!(rt; edited(alloc, 5000, k + 1, &mut text)?);
    }
    assert_eq!(rt; text.lines(), 5025);
    Ok(())
}
