//! What is told of the rows of a text: among it, rows without partner and the greatest depth.

ghost use Rattle.std.specs.Prelude.{◌≡◌, ◌<◌, ◌^◌, All, length, count_by};
ghost use Rattle.generator_defs.specs.Summary.{deepest, is_bad, summary};

use bracket_lex::Paired;
use generator_defs::Made;
use pairing_defs::{COLOURS, Row};

/// What is told of the rows of a text of so many lines.
pub fn summary_of(rows: &Paired, lines: u32) -> Made
    requires { All (λ row. row.level < length rows.now) rows.now }
    ensures { result ≡ summary lines rows.now }
{
    let rows = rows.rows();
    Made {
        lines,
        rows: rows.len() as u32,
        bad: bad_rows(rows),
        deepest: deepest(rows),
    }
}

/// How many rows have no partner.
fn bad_rows(rows: &[Row]) -> u32
    requires { length rows.now < 2 ^ 32 }
    ensures { result ≡ count_by is_bad rows.now }
{
    rows.iter().filter(|row| row.colour == COLOURS).count() as u32
}

/// One more than the greatest level, and 0 without rows.
fn deepest(rows: &[Row]) -> u32
    requires few { length rows.now < 2 ^ 32 }
    requires levels { All (λ row. row.level < length rows.now) rows.now }
    ensures { result ≡ deepest rows.now }
{
    let mut deepest = 0;
    for row in rows {
        deepest = deepest.max(row.level + 1);
    }
    deepest
}
