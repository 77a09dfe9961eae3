//! Answers about a place: the bracket there, the pairs around it, and where to jump.
ghost use Rattle.std.specs.Prelude.{◌≡◌, ℕ, ◌≤◌, true, false, if◌then◌else◌, List, Some, None};
ghost use Rattle.std.specs.Prelude.{option_and_then};
ghost use Rattle.std.specs.List.{find};
ghost use Rattle.std.specs.Option.{option_map, option_or};
ghost use Rattle.bracket_ast.specs.Shapes.{or_nothing, nows};
ghost use Rattle.answer_defs.specs.PairAnswers.{level_in, around_in, match_in};
ghost use Rattle.tree_defs.specs.Rows.{start};
ghost use Rattle.tree_defs.specs.Tree.{depth};
ghost use Rattle.tree_queries.specs.Known.{known};
ghost use Rattle.tree_queries.specs.Answers.{level_known, around_known, touches, touched_of, twin_touched, mark_touches, by_row, span_at};
ghost use Rattle.tree_queries.specs.Told.{IsPlaced, AnswersFrom};
ghost use Rattle.tree_queries.specs.Parts.{Placed, IsPairAt};

use crate::parts::{PairAt, START, child_at, lone_at, pair_at, surrounds};
use answer_defs::{MarkAt, Twin};
use bracket_ast::{Node, Sort, Tree};
use text_pos::{Length, Pos, Span};

/// How many pairs are open at a place, with those that nothing closes.
pub fn level_at(tree: &Tree, at: Pos) -> u32
    requires { IsPlaced (or_nothing tree.now.root) }
    ensures { AnswersFrom (or_nothing tree.now.root) (λ rows. level_in rows at) result }
{
    match &tree.root {
        Some(root) => levels(root, START, at),
        None => 0,
    }
}

/// The pairs of a node that are open at a place.
#[cycle(levels)]
fn levels(node: &Node, from: Length, at: Pos) -> u32
    requires { Placed node.now from }
    ensures level { (kinds : List ℕ) → result ≡ level_known at (known node.now from kinds) }
    ensures few { result ≤ depth node.now }
{
    match node.sort() {
        Sort::Pair => {
            let _depth = node.depth();
            let pair = pair_at(node, from);
            if surrounds(&pair, at) {
                levels_inside(&pair, at) + 1
            } else {
                0
            }
        }
        Sort::List => {
            let child = child_at(node, from, at, false);
            levels(child.node, child.from, at)
        }
        _ => 0,
    }
}

/// The pairs inside a pair that are open at a place.
#[cycle(levels)]
fn levels_inside(pair: &PairAt, at: Pos) -> u32
    requires { Placed (or_nothing (nows pair.now.inside)) pair.now.begin }
    ensures level { (kinds : List ℕ) → result ≡ level_known at (known (or_nothing (nows pair.now.inside)) pair.now.begin kinds) }
    ensures few { result ≤ depth (or_nothing (nows pair.now.inside)) }
{
    match pair.inside {
        Some(inside) => levels(inside, pair.begin, at),
        None => 0,
    }
}

/// Of the closed pairs around a place the one that opens last. A pair is around a place where its opener ends there or
/// before it and its closer starts there or behind it.
pub fn around(tree: &Tree, at: Pos) -> Option<Twin>
    requires { IsPlaced (or_nothing tree.now.root) }
    ensures { AnswersFrom (or_nothing tree.now.root) (λ rows. around_in rows at) result }
{
    match &tree.root {
        Some(root) => innermost(root, START, at),
        None => None,
    }
}

/// Of the closed pairs of a node around a place the one that opens last.
#[cycle(innermost)]
fn innermost(node: &Node, from: Length, at: Pos) -> Option<Twin>
    requires { Placed node.now from }
    ensures { (kinds : List ℕ) → result ≡ around_known at (known node.now from kinds) }
{
    match node.sort() {
        Sort::Pair => {
            let pair = pair_at(node, from);
            if surrounds(&pair, at) {
                innermost_inside(&pair, at).or(twin_at(&pair))
            } else {
                None
            }
        }
        Sort::List => {
            let child = child_at(node, from, at, false);
            innermost(child.node, child.from, at)
        }
        _ => None,
    }
}

#[cycle(innermost)]
fn innermost_inside(pair: &PairAt, at: Pos) -> Option<Twin>
    requires { Placed (or_nothing (nows pair.now.inside)) pair.now.begin }
    ensures { (kinds : List ℕ) → result ≡ around_known at (known (or_nothing (nows pair.now.inside)) pair.now.begin kinds) }
{
    match pair.inside {
        Some(inside) => innermost(inside, pair.begin, at),
        None => None,
    }
}

/// The opener and the closer of a pair, where it is closed.
fn twin_at(pair: &PairAt) -> Option<Twin>
    ensures { result ≡ option_map (λ c. record { first = span_at pair.now.opener; second = span_at c }) pair.now.closer }
{
    match pair.closer {
        Some(closer) => Some(Twin {
            first: span_at(pair.opener),
            second: span_at(closer),
        }),
        None => None,
    }
}

fn span_at(mark: MarkAt) -> Span
    ensures { result ≡ span_at mark }
{
    Span {
        from: Pos {
            line: mark.line,
            col: mark.from,
        },
        to: Pos {
            line: mark.line,
            col: mark.to,
        },
    }
}

/// A bracket's mark, and its partner's.
#[derive(Clone, Copy)]
pub(crate) struct Touched {
    pub(crate) mark: MarkAt,
    pub(crate) mate: Option<MarkAt>,
}

/// The bracket at a place and its partner: the bracket that has its first or a further character behind the place, else
/// the one that ends there. None where no bracket is there, or where it has no partner.
pub fn match_at(tree: &Tree, at: Pos) -> Option<Twin>
    requires { IsPlaced (or_nothing tree.now.root) }
    ensures { AnswersFrom (or_nothing tree.now.root) (λ rows. match_in rows at) result }
{
    match &tree.root {
        Some(root) => match bracket_at(root, at) {
            Some(touched) => twin_touched(touched),
            None => None,
        },
        None => None,
    }
}

/// The bracket of a text at a place.
fn bracket_at(root: &Node, at: Pos) -> Option<Touched>
    requires { Placed root.now start }
    ensures { (kinds : List ℕ) → result ≡ option_or (option_map touched_of (find (by_row (touches true at)) (known root.now start kinds))) (option_map touched_of (find (by_row (touches false at)) (known root.now start kinds))) }
{
    touching(root, START, at, true).or(touching(root, START, at, false))
}

/// The bracket of a node that has a character behind a place, or where `over` is false that ends there.
#[cycle(touching)]
fn touching(node: &Node, from: Length, at: Pos, over: bool) -> Option<Touched>
    requires { Placed node.now from }
    ensures { (kinds : List ℕ) → result ≡ option_map touched_of (find (by_row (touches over at)) (known node.now from kinds)) }
{
    match node.sort() {
        Sort::Pair => {
            let pair = pair_at(node, from);
            touched_opener(&pair, at, over)
                .or(touching_inside(&pair, at, over))
                .or(touched_closer(&pair, at, over))
        }
        Sort::List => {
            let child = child_at(node, from, at, over);
            touching(child.node, child.from, at, over)
        }
        Sort::Unexpected => touched_mark(lone_at(node, from), None, at, over),
        _ => None,
    }
}

#[cycle(touching)]
fn touching_inside(pair: &PairAt, at: Pos, over: bool) -> Option<Touched>
    requires { Placed (or_nothing (nows pair.now.inside)) pair.now.begin }
    ensures { (kinds : List ℕ) → result ≡ option_map touched_of (find (by_row (touches over at)) (known (or_nothing (nows pair.now.inside)) pair.now.begin kinds)) }
{
    match pair.inside {
        Some(inside) => touching(inside, pair.begin, at, over),
        None => None,
    }
}

fn touched_opener(pair: &PairAt, at: Pos, over: bool) -> Option<Touched>
    ensures { result ≡ (if mark_touches over at pair.now.opener then Some (record { mark = pair.now.opener; mate = pair.now.closer }) else None) }
{
    touched_mark(pair.opener, pair.closer, at, over)
}

fn touched_closer(pair: &PairAt, at: Pos, over: bool) -> Option<Touched>
    ensures { result ≡ option_and_then (λ c. if mark_touches over at c then Some (record { mark = c; mate = Some pair.now.opener }) else None) pair.now.closer }
{
    match pair.closer {
        Some(closer) => touched_mark(closer, Some(pair.opener), at, over),
        None => None,
    }
}

/// A bracket, where it is at a place.
fn touched_mark(mark: MarkAt, mate: Option<MarkAt>, at: Pos, over: bool) -> Option<Touched>
    ensures { result ≡ (if mark_touches over at mark then Some (record { mark = mark; mate = mate }) else None) }
{
    if mark_touches(mark, at, over) {
        Some(Touched { mark, mate })
    } else {
        None
    }
}

fn mark_touches(mark: MarkAt, at: Pos, over: bool) -> bool
    ensures { result ≡ mark_touches over at mark }
{
    if over {
        mark.line == at.line && mark.from <= at.col && at.col < mark.to
    } else {
        mark.line == at.line && mark.to == at.col
    }
}

fn twin_touched(touched: Touched) -> Option<Twin>
    ensures { result ≡ twin_touched touched }
{
    match touched.mate {
        Some(mate) => Some(Twin {
            first: span_at(touched.mark),
            second: span_at(mate),
        }),
        None => None,
    }
}
