//! Lines with their tree, and the tree of the lines after changes.
ghost use Rattle.std.specs.Prelude.{◌≡◌, ◌+◌, ◌^◌, ◌<◌, ◌≤◌, length};
ghost use Rattle.bracket_marks.specs.MarkedLine.{marks_in};

use crate::given::Telling;
use crate::walk::rows_of;
use agreement_check::{Change, agreed, are_sound};
use bracket_ast::Tree;
use bracket_lex::MarkLines;
use mark_source::{MarkReader, MarkSource};
use reuse_parser::{parse, reparse};
use std::alloc::{AllocError, Global};
use std::marker::{Brand, Model};
use std::sync::ledger::{Blank, Ledger};
use step_count::Steps;
use text_pos::Pos;

/// Lines and their tree at a nesting limit.
#[derive(Drop)]
pub(crate) struct Stage {
    limit: u32,
    lines: MarkLines,
    tree: Tree,
}

impl Model for Stage {
    ghost use Rattle.std.specs.Prelude.{List};
    ghost use Rattle.bracket_ast.specs.Shapes.{or_nothing};
    ghost use Rattle.bracket_marks.specs.MarkedLine.{MarkedLine};
    ghost use Rattle.reuse_parser_tests.specs.Stages.{IsStage};

    ghost Value = { List MarkedLine };

    ghost view = { λ s. s.lines };

    ghost invariant = { λ s. IsStage s.limit s.lines (or_nothing s.tree.root) };
}

/// The tree after changes, how many marks were read for it, and which place was reached.
#[derive(Drop)]
pub(crate) struct Later {
    pub(crate) stage: Stage,
    pub(crate) given: u64,
    pub(crate) place: Pos,
}

impl Stage {
    /// The tree of all marks of lines, unless they are none that a source may have.
    pub(crate) fn of(
        alloc: Global,
        lines: MarkLines,
        limit: u32,
    ) -> Result<Option<Stage>, AllocError>
        requires limit { limit ≤ 300 }
        requires some { 0 < length lines }
        requires few { length (marks_in lines) < 2 ^ 32 }
    {
        Stage::counted::<Brand>(alloc, lines, limit, Blank::new(1))
    }

    fn counted<L: Ledger>(
        alloc: Global,
        lines: MarkLines,
        limit: u32,
        blank: Blank,
    ) -> Result<Option<Stage>, AllocError>
        requires limit { limit ≤ 300 }
        requires some { 0 < length lines }
        requires few { length (marks_in lines) < 2 ^ 32 }
        requires name { blank.name ≡ L.name }
        requires parts { blank.parts ≡ L.parts }
        requires one { 0 < blank.parts }
    {
        if !are_sound(&lines) {
            return Ok(None);
        }
        let mut steps = Steps::<L>::begin(blank);
        let mut reader = MarkReader::new(&lines);
        let tree = parse(alloc, &mut reader, limit, &mut steps)?;
        Ok(Some(Stage { limit, lines, tree }))
    }

    /// The tree of lines after changes, with nodes of this one, unless they may not agree outside the changes.
    pub(crate) fn after(
        &self,
        alloc: Global,
        changes: &[Change],
        lines: MarkLines,
    ) -> Result<Option<Later>, AllocError>
        requires some { 0 < length lines }
        requires few { length (marks_in lines) < 2 ^ 32 }
    {
        self.counted_after::<Brand>(alloc, changes, lines, Blank::new(1))
    }

    fn counted_after<L: Ledger>(
        &self,
        alloc: Global,
        changes: &[Change],
        lines: MarkLines,
        blank: Blank,
    ) -> Result<Option<Later>, AllocError>
        requires some { 0 < length lines }
        requires few { length (marks_in lines) < 2 ^ 32 }
        requires name { blank.name ≡ L.name }
        requires parts { blank.parts ≡ L.parts }
        requires one { 0 < blank.parts }
    {
        if !are_sound(&lines) {
            return Ok(None);
        }
        let Some(spans) = agreed(alloc, changes, &self.lines, &lines)? else {
            return Ok(None);
        };
        let mut steps = Steps::<L>::begin(blank);
        let mut source = Telling::new(&lines);
        let tree = reparse(
            alloc,
            &self.tree,
            &spans,
            &mut source,
            self.limit,
            &mut steps,
        )?;
        let given = source.given;
        let place = source.place;
        let stage = Stage {
            limit: self.limit,
            lines,
            tree,
        };
        Ok(Some(Later {
            stage,
            given,
            place,
        }))
    }

    pub(crate) fn lines(&self) -> &MarkLines
        ensures same { result.now ≡ self.now }
        ensures some { 0 < length self.now }
        ensures few { length (marks_in self.now) < 2 ^ 32 }
    {
        &self.lines
    }

    pub(crate) fn limit(&self) -> u32
        ensures { result ≤ 300 }
    {
        self.limit
    }

    pub(crate) fn rows(&self, alloc: Global) -> Result<String, AllocError> {
        rows_of(alloc, &self.tree)
    }
}
