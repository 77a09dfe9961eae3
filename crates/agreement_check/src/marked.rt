//! Whether the marks of lines stand in order, in their lines, and open kinds below 64.

ghost use Rattle.std.specs.Prelude.{◌↔◌, ◌<◌, ◌≤◌, IsTrue};
ghost use Rattle.mark_source.specs.Source.{IsMarked, IsRole};
ghost use Rattle.agreement_check.specs.Checks.{AreSound};

use bracket_lex::{LineMark, LineMarks, MarkLines, Role};

/// Whether an opener is of a kind below 64.
fn is_role(role: Role) -> bool
    ensures { IsTrue result ↔ IsRole role }
{
    match role {
        Role::Opener(kind) => kind < 64,
        Role::Closer(_) => true,
    }
}

/// Whether a mark may stand at a column or behind it: it has some columns, and an opener is of a kind below 64.
fn is_next(from: u32, mark: LineMark) -> bool
    ensures { IsTrue result ↔ ((from ≤ mark.from) × (mark.from < mark.to) × IsRole mark.role) }
{
    from <= mark.from && mark.from < mark.to && is_role(mark.role)
}

/// Whether the marks of a line stand in order, each with some columns, and end in the line.
fn is_marked(line: &LineMarks) -> bool
    ensures { IsTrue result ↔ IsMarked line.now }
{
    let mut from = 0;
    for mark in line.marks() {
        if !is_next(from, *mark) {
            return false;
        }
        from = mark.to;
    }
    from <= line.length()
}

/// Whether lines are such as a source may have.
pub fn are_sound(lines: &MarkLines) -> bool
    ensures { IsTrue result ↔ AreSound lines.now }
{
    for line in lines.iter() {
        let line = line.get();
        if !is_marked(line) {
            return false;
        }
        let _short = line.length();
    }
    true
}
