//! What agreement sees of a text: its marks, the lengths of its lines, and its end.

ghost use Rattle.std.specs.Prelude.{◌≡◌, ◌<◌, ◌++◌, ◌^◌, true, map, length, IfOk, OnOk};
ghost use Rattle.pairing_defs.specs.Marks.{on_line};
ghost use Rattle.std.specs.List.{list_all};
ghost use Rattle.agreement_check.specs.Checks.{marked_text, is_narrow};

use bracket_lex::{LineMark, Mark, MarkLines};
use std::alloc::{AllocError, Global};
use std::marker::Model;
use text_pos::{Length, Pos};

/// What agreement sees of a text: its marks, the lengths of its lines, and its end.
#[derive(Drop)]
pub(crate) struct Plain {
    pub(crate) marks: Vec<Mark>,
    pub(crate) lengths: Vec<u32>,
    pub(crate) end: Length,
}

impl Model for Plain {
    ghost use Rattle.change_defs.specs.Agreement.{Marked};

    ghost Value = { Marked };

    ghost view = { λ t. record { marks = t.marks.items; lines = t.lengths.items; end = t.end } };
}

/// Adds the marks of line n.
fn take_line(all: &mut Vec<Mark>, n: u32, marks: &[LineMark]) -> Result<(), AllocError>
    ensures { OnOk result (all.new.items ≡ all.old.items ++ map (on_line n) marks.now) }
{
    for mark in marks {
        all.push(Mark {
            at: Pos {
                line: n,
                col: mark.from,
            },
            to: mark.to,
            role: mark.role,
        })?;
    }
    Ok(())
}

/// What agreement sees of lines.
pub(crate) fn plain_of(alloc: Global, lines: &MarkLines) -> Result<Plain, AllocError>
    requires { 0 < length lines.now }
    ensures text { IfOk result (λ t. t ≡ marked_text lines.now) }
    ensures few { IfOk result (λ t. length t.lines < 2 ^ 32) }
    ensures narrow { IfOk result (λ t. list_all is_narrow t.lines ≡ true) }
{
    let mut marks = Vec::new(alloc);
    let mut lengths = Vec::new(alloc);
    let mut n = 0;
    for line in lines.iter() {
        let line = line.get();
        take_line(&mut marks, n, line.marks())?;
        lengths.push(line.length())?;
        n += 1;
    }
    let end = lines.end();
    Ok(Plain {
        marks,
        lengths,
        end: Length {
            lines: end.line,
            cols: end.col,
        },
    })
}
