//! Gives rows their colours and inner ends, and openers their partners, going backward over the rows.

ghost use Rattle.std.specs.Prelude.{◌≡◌, ◌<◌, ◌≤◌, ◌^◌, List, ℕ, Option, length, map, reverse, OnOk};
ghost use Rattle.pairing_defs.specs.Pairing.{Removal, removal_by, colour_of, row_of, rows_from};
ghost use Rattle.bracket_lex.specs.Pairing.{placed_of, first_for};

use pairing_defs::{COLOURS, Role, Row};
use std::alloc::{AllocError, Global};
use std::marker::Model;
use text_pos::Pos;

/// The row of a closer: its number, where it starts, and the row that it closes.
#[derive(Clone, Copy, Debug, PartialEq, Eq)]
struct Closer {
    row: u32,
    start: Pos,
    closes: u32,
}

impl Model for Closer {
    ghost use Rattle.pairing_defs.specs.Pairing.{Removal};

    ghost Value = { Removal };

    ghost view = { λ c. record { row = c.row; start = c.start; closes = c.closes } };

    ghost inverse = { λ c. record { row = c.row; start = c.start; closes = c.closes } };
}

/// The closer by which row n is no longer open. The next closers are the last of the list. Those that
/// close a row behind n are of no use to the rows before n either, and leave it.
fn closer_for(closers: &mut Vec<Closer>, n: u32) -> Option<Closer>
    ensures found { result ≡ first_for n (reverse closers.old.items) }
    ensures others { (m : ℕ) → m ≤ n
        → first_for m (reverse closers.new.items) ≡ first_for m (reverse closers.old.items) }
{
    while let Some(closer) = closers.last().copied() {
        if closer.closes <= n {
            return Some(closer);
        }
        closers.pop();
    }
    None
}

/// The colour of a row.
fn colour_of(level: u32, partner: Option<u32>) -> u32
    ensures { result ≡ colour_of level partner }
{
    if partner.is_some() {
        level % COLOURS
    } else {
        COLOURS
    }
}

/// Row n with its colour, its partner and its inner end, given the closer by which it is no longer open.
fn finished(row: &Row, n: u32, removal: Option<Closer>, end: Pos) -> Row
    ensures { result ≡ row_of end n (placed_of row.now) row.now.mark.role removal }
{
    let (partner, inner) = match row.mark.role {
        Role::Closer(_) => (row.partner, row.mark.at),
        Role::Opener(_) => match removal {
            None => (None, end),
            Some(closer) if closer.closes == n => (Some(closer.row), closer.start),
            Some(closer) => (None, closer.start),
        },
    };
    Row {
        mark: row.mark,
        level: row.level,
        own: row.own,
        colour: colour_of(row.level, partner),
        partner,
        inner,
    }
}

/// Adds row n to the list, where it is that of a closer with a partner.
fn add_closer(closers: &mut Vec<Closer>, n: u32, row: &Row) -> Result<(), AllocError>
    ensures { OnOk result ((m : ℕ) → first_for m (reverse closers.new.items)
        ≡ removal_by m n (placed_of row.now) row.now.partner (first_for m (reverse closers.old.items))) }
{
    if let Some(closes) = row.partner {
        closers.push(Closer {
            row: n,
            start: row.mark.at,
            closes,
        })?;
    }
    Ok(())
}

/// Gives the rows their colours and inner ends, and the openers their partners.
pub(crate) fn finish(alloc: Global, rows: &mut [Row], end: Pos) -> Result<(), AllocError>
    requires { length rows.old < 2 ^ 32 }
    ensures { OnOk result (rows.new ≡ rows_from end 0 (map placed_of rows.old)) }
{
    let mut closers = Vec::new(alloc);
    for n in (0..rows.len()).rev() {
        let number = n as u32;
        let row = &mut rows[n];
        let removal = closer_for(&mut closers, number);
        add_closer(&mut closers, number, row)?;
        *row = finished(row, number, removal, end);
    }
    Ok(())
}
