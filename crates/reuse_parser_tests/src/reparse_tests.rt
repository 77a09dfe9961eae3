ghost use Rattle.std.specs.Prelude.{◌≡◌, ◌<◌, ◌≤◌, ◌^◌, IfOk, length};
ghost use Rattle.bracket_marks.specs.MarkedLine.{marks_in};

use crate::edits::{
    Edited, Numbers, PAIRS, Piece, edited_by, paired_pieces_by, pieces_by, text_of,
};
use crate::fresh::{count_fresh, count_marks};
use crate::stage::Stage;
use agreement_check::Change;
use bracket_lex::{BracketRefusal, Brackets, MarkLines, PairText, PairTexts, Paired};
use line_text::Text;
use std::alloc::{AllocError, Global};
use std::test::Fail;
use text_pos::{Length, Name, Pos};

fn far(lines: u32, cols: u32) -> Length {
    Length { lines, cols }
}

/// The lines of a text with their marks.
fn marked(alloc: Global, brackets: &Brackets, text: &Text) -> Result<MarkLines, AllocError>
    ensures some { IfOk result (λ lines. 0 < length lines) }
    ensures few { IfOk result (λ lines. length (marks_in lines) < 2 ^ 32) }
{
    MarkLines::of_text(alloc, brackets, text, 20_000)
}

/// The brackets of texts that stand in turn.
fn brackets_of(alloc: Global, texts: &[&str]) -> Result<Brackets, BracketRefusal> {
    let mut pairs = PairTexts::new(alloc);
    for pair in texts.chunks(2) {
        if let [opener, closer] = pair {
            pairs.push(PairText {
                opener: Name::of(alloc, opener)?,
                closer: Name::of(alloc, closer)?,
            })?;
        }
    }
    Brackets::new(alloc, &pairs)
}

#[test]
fn an_edit_changes_what_stands_behind_it(rt: HostRuntime) -> Result<(), Fail> {
    let brackets = Brackets::usual(rt.alloc())?;
    for (limit, old, new, change, rows) in [
        (
            200,
            "{\n(}",
            "\n(}",
            Change {
                start: far(0, 0),
                old: far(0, 1),
                new: far(0, 0),
            },
            "[1,0,1,0,0,6]1:2 [1,1,2,1,0,6]1:1 ",
        ),
        (
            1,
            "\n()",
            "[\n()",
            Change {
                start: far(0, 0),
                old: far(0, 0),
                new: far(0, 1),
            },
            "[0,0,1,0,0,6]1:2 [1,1,2,1,0,6]1:1 ",
        ),
    ] {
        let old_text = Text::from_bytes(rt.alloc(), old.as_bytes())?;
        let new_text = Text::from_bytes(rt.alloc(), new.as_bytes())?;
        let old_lines = marked(rt.alloc(), &brackets, &old_text)?;
        let new_lines = marked(rt.alloc(), &brackets, &new_text)?;
        let stage = Stage::of(rt.alloc(), old_lines, limit)?.ok_or("marks")?;
        let later = stage
            .after(rt.alloc(), &[change], new_lines)?
            .ok_or("agreement")?;
        assert_eq!(rt; later.stage.rows(rt.alloc())?.as_str(), rows, "{old}");
    }
    Ok(())
}

/// The tree of a text with nodes of an old tree beside the tree of all marks.
#[derive(Drop)]
struct Compared {
    stage: Stage,
    file: String,
    rows: String,
    rows_of_all: String,
    given: u64,
    /// How many marks there are.
    marks: u64,
    /// How many are fresh, where that was counted.
    fresh: Option<u64>,
    place: Pos,
    end: Pos,
}

fn compare(
    alloc: Global,
    brackets: &Brackets,
    old: &Stage,
    edited: &Edited,
) -> Result<Compared, Fail> {
    let file = text_of(alloc, &edited.pieces)?;
    let text = Text::from_bytes(alloc, file.as_str().as_bytes())?;
    let lines = marked(alloc, brackets, &text)?;
    let end = lines.end();
    let limit = old.limit();
    let paired = Paired::of(alloc, &lines, end, limit)?;
    let old_paired = Paired::of(alloc, old.lines(), old.lines().end(), limit)?;
    let marks = count_marks(&lines);
    let fresh = count_fresh(old.lines(), &lines, &old_paired, &paired, &edited.ends);
    let copy = lines.copy(alloc)?;
    let all = Stage::of(alloc, copy, limit)?.ok_or("marks")?;
    let later = old
        .after(alloc, &edited.changes, lines)?
        .ok_or("agreement")?;
    let rows = later.stage.rows(alloc)?;
    Ok(Compared {
        stage: later.stage,
        file,
        rows,
        rows_of_all: all.rows(alloc)?,
        given: later.given,
        marks,
        fresh,
        place: later.place,
        end,
    })
}

/// A text that numbers tell: of any pieces, or of pairs.
fn first_pieces(
    alloc: Global,
    numbers: &mut Numbers,
    paired: bool,
) -> Result<Vec<Piece>, AllocError> {
    let count = numbers.below(150);
    if paired {
        paired_pieces_by(alloc, numbers, count)
    } else {
        pieces_by(alloc, numbers, count)
    }
}

fn stage_of(alloc: Global, brackets: &Brackets, pieces: &[Piece], limit: u32) -> Result<Stage, Fail>
    requires { limit ≤ 300 }
{
    let file = text_of(alloc, pieces)?;
    let text = Text::from_bytes(alloc, file.as_str().as_bytes())?;
    let lines = marked(alloc, brackets, &text)?;
    Ok(Stage::of(alloc, lines, limit)?.ok_or("marks")?)
}

#[test]
fn trees_with_old_nodes_are_those_of_all_marks(rt: HostRuntime) -> Result<(), Fail> {
    let brackets = brackets_of(rt.alloc(), &PAIRS)?;
    let mut counted = 0u32;
    let mut spared = 0u32;
    for seed in 0..150 {
        let mut numbers = Numbers::new(u64::from(seed));
        let limit = if seed % 3 == 0 { seed % 5 } else { 200 };
        let mut pieces = first_pieces(rt.alloc(), &mut numbers, seed % 2 == 0)?;
        let mut stage = stage_of(rt.alloc(), &brackets, &pieces, limit)?;
        for every in [80, 40, 15, 4] {
            let edited = edited_by(rt.alloc(), &mut numbers, &pieces, every)?;
            let now = compare(rt.alloc(), &brackets, &stage, &edited)?;
            assert_eq!(rt;
                now.rows.as_str(),
                now.rows_of_all.as_str(),
                "{seed}, {every}: {}",
                now.file
            );
            assert_eq!(rt; now.place, now.end, "{seed}, {every}: {}", now.file);
            assert!(rt;
                now.given <= now.fresh.unwrap_or(now.marks),
                "{seed}, {every}: {}",
                now.file
            );
            if now.fresh.is_some() {
                counted = counted.saturating_add(1);
            }
            if now.given < now.marks {
                spared = spared.saturating_add(1);
            }
            stage = now.stage;
            pieces = edited.pieces;
        }
    }
    assert_eq!(rt; (counted > 80, spared > 500), (true, true));
    Ok(())
}

/// So many lines of pairs, and the tree of the text where a letter is put into the pair of one of them.
fn in_one_pair(rt: &HostRuntime, brackets: &Brackets, count: u32, line: u32) -> Result<u64, Fail> {
    let mut old = String::new(rt.alloc());
    let mut new = String::new(rt.alloc());
    for n in 0..count {
        old.push_str("()\n")?;
        new.push_str(if n == line { "(a)\n" } else { "()\n" })?;
    }
    let old_text = Text::from_bytes(rt.alloc(), old.as_str().as_bytes())?;
    let new_text = Text::from_bytes(rt.alloc(), new.as_str().as_bytes())?;
    let old_lines = marked(rt.alloc(), brackets, &old_text)?;
    let new_lines = marked(rt.alloc(), brackets, &new_text)?;
    let stage = Stage::of(rt.alloc(), old_lines, 200)?.ok_or("marks")?;
    let change = Change {
        start: far(line, 1),
        old: far(0, 0),
        new: far(0, 1),
    };
    let later = stage
        .after(rt.alloc(), &[change], new_lines)?
        .ok_or("agreement")?;
    Ok(later.given)
}

#[test]
fn a_change_in_a_pair_reads_its_marks_alone(rt: HostRuntime) -> Result<(), Fail> {
    let brackets = Brackets::usual(rt.alloc())?;
    for line in [0, 500, 999] {
        assert_eq!(rt; in_one_pair(&rt, &brackets, 1000, line)?, 2, "line {line}");
    }
    Ok(())
}
