//! Makes the tree of all marks of a source, anew or with nodes of an old tree.

ghost use Rattle.std.specs.Prelude.{◌≡◌, ◌+◌, ◌≤◌, ◌<◌, length, IfOk};
ghost use Rattle.bracket_marks.specs.MarkedLine.{marks_in, text_end};
ghost use Rattle.mark_source.specs.Source.{AreMarked};
ghost use Rattle.bracket_ast.specs.Shapes.{or_nothing, SoundInside};
ghost use Rattle.reuse_defs.specs.Whole.{StandsFor};
ghost use Rattle.reuse_defs.specs.Unsettled.{RisesByFresh};
ghost use Rattle.reuse_parser.specs.Parsing.{given_after};
ghost use Rattle.reuse_defs.specs.Since.{Since};
ghost use Rattle.reuse_parser.specs.Reusing.{AreShort};

use crate::gather::gather;
use crate::list::parse_list;
use crate::old::Old;
use crate::place::{Around, Place};
use crate::relist::list_from;
use bracket_ast::Tree;
use edit_mapper::{Mapper, Spans};
use mark_source::MarkSource;
use node_reader::Reader;
use std::alloc::{AllocError, Global};
use std::sync::ledger::Ledger;
use step_count::Steps;
use text_pos::{Kinds, Length, Pos, length_to};

/// The tree of all marks of a source that stands at the text's start, with at most `limit` pairs one in the other. One
/// step is taken for each mark, and the source's count rises by one for each. The source's place is then the text's end.
pub fn parse<S: MarkSource, M: Ledger>(
    alloc: Global,
    source: &mut S,
    limit: u32,
    marks: &mut Steps<M>,
) -> Result<Tree, AllocError>
    requires limit { limit ≤ 300 }
    requires lines { 0 < length (S.told source.old).lines }
    requires begin { (S.told source.old).place ≡ record { line = 0; col = 0 } }
    ensures stands { IfOk result (λ t. StandsFor limit (or_nothing t.root) (S.told source.old).lines) }
    ensures place { IfOk result (λ t. (S.told source.new).place ≡ text_end (S.told source.old).lines) }
    ensures lines { (S.told source.new).lines ≡ (S.told source.old).lines }
    ensures counted { IfOk result (λ t. marks.new ≡ marks.old + length (marks_in (S.told source.old).lines)) }
    ensures few { marks.new ≤ marks.old + length (marks_in (S.told source.old).lines) }
    ensures given { IfOk result (λ t. (S.told source.new).given ≡ given_after (length (marks_in (S.told source.old).lines)) (S.told source.old).given) }
    ensures few_given { (S.told source.new).given ≤ (S.told source.old).given + length (marks_in (S.told source.old).lines) }
{
    let all = gather(alloc, source, marks)?;
    let end = source.end();
    let around = Around {
        above: Kinds::empty(),
        level: 0,
        limit,
        end: length_to(end),
    };
    let start = Place {
        at: Length { lines: 0, cols: 0 },
        marks: &all,
    };
    let parsed = parse_list(alloc, around, start)?;
    let tree = known(parsed.tree);
    source.seek(end);
    Ok(tree)
}

/// The tree of all marks of a source that stands at the text's start, as `parse` makes it, with nodes of an old tree that
/// the changes since leave as they were. The old tree stands for old marks at this limit, and outside the changes old
/// and new marks agree. At most one step is taken for each mark, and the source's count rises by at most as many. Where
/// each old mark has a row with a partner and no opener of the new text is cut, both rise by at most the fresh marks. The
/// source's place is then the text's end.
pub fn reparse<S: MarkSource, M: Ledger>(
    alloc: Global,
    old: &Tree,
    changes: &Spans,
    source: &mut S,
    limit: u32,
    marks: &mut Steps<M>,
) -> Result<Tree, AllocError>
    requires limit { limit ≤ 300 }
    requires lines { 0 < length (S.told source.old).lines }
    requires begin { (S.told source.old).place ≡ record { line = 0; col = 0 } }
    requires since { Since limit (or_nothing old.now.root) changes.now (S.told source.old).lines }
    requires short { AreShort (S.told source.old).lines }
    ensures stands { IfOk result (λ t. StandsFor limit (or_nothing t.root) (S.told source.old).lines) }
    ensures place { IfOk result (λ t. (S.told source.new).place ≡ text_end (S.told source.old).lines) }
    ensures lines { (S.told source.new).lines ≡ (S.told source.old).lines }
    ensures few { marks.new ≤ marks.old + length (marks_in (S.told source.old).lines) }
    ensures few_given { (S.told source.new).given ≤ (S.told source.old).given + length (marks_in (S.told source.old).lines) }
    ensures fresh { RisesByFresh limit (or_nothing old.now.root) changes.now (S.told source.old).lines marks.old marks.new }
    ensures fresh_given { RisesByFresh limit (or_nothing old.now.root) changes.now (S.told source.old).lines (S.told source.old).given (S.told source.new).given }
{
    let end = end_of(source);
    let around = Around {
        above: Kinds::empty(),
        level: 0,
        limit,
        end: length_to(end),
    };
    let mut old = Old {
        mapper: Mapper::new(changes),
        reader: Reader::new(alloc, old)?,
    };
    let start = Length { lines: 0, cols: 0 };
    let listed = list_from(alloc, around, start, &mut old, source, marks)?;
    let tree = known(listed.tree);
    source.seek(end);
    Ok(tree)
}

/// Where a source's text ends, with what holds of its lines.
fn end_of<S: MarkSource>(source: &S) -> Pos
    requires { 0 < length (S.told source.now).lines }
    ensures end { result ≡ text_end (S.told source.now).lines }
    ensures marked { AreMarked (S.told source.now).lines }
{
    let _first = source.peek();
    source.end()
}

/// The tree, with what holds of each node.
fn known(tree: Tree) -> Tree
    ensures same { result.root ≡ tree.root }
    ensures sound { SoundInside tree.root }
{
    if let Some(root) = &tree.root {
        let _known = root.length();
    }
    tree
}
