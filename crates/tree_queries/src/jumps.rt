//! Where to jump from a place.
ghost use Rattle.std.specs.Prelude.{◌≡◌, ℕ, List, Some, None, if◌then◌else◌};
ghost use Rattle.std.specs.Option.{option_map, option_or};
ghost use Rattle.bracket_ast.specs.Shapes.{or_nothing, nows};
ghost use Rattle.answer_defs.specs.PairAnswers.{jump_in, next_start, second_start, is_up_to};
ghost use Rattle.tree_queries.specs.Known.{known};
ghost use Rattle.tree_queries.specs.Answers.{next_known};
ghost use Rattle.tree_queries.specs.Told.{IsPlaced, AnswersFrom};
ghost use Rattle.tree_queries.specs.Parts.{Placed, next_of, start_of_mark};

use crate::parts::{Children, PairAt, START, apart, end_of, is_left, lone_at, pair_at};
use crate::places::{around, match_at};
use answer_defs::{MarkAt, Twin};
use bracket_ast::{Node, Sort, Tree};
use text_pos::{Length, Pos};

/// Where to jump from a place: to the partner of the bracket there, else to the closer of the pair around it, else to
/// the next bracket. None where nothing of these is there.
pub fn jump(tree: &Tree, at: Pos) -> Option<Pos>
    requires { IsPlaced (or_nothing tree.now.root) }
    ensures { AnswersFrom (or_nothing tree.now.root) (λ rows. jump_in rows at) result }
{
    first_of(match_at(tree, at), around(tree, at), next_start(tree, at))
}

fn first_of(touched: Option<Twin>, around: Option<Twin>, next: Option<Pos>) -> Option<Pos>
    ensures { result ≡ option_or (option_map second_start touched) (option_or (option_map second_start around) next) }
{
    match touched {
        Some(twin) => Some(twin.second.from),
        None => match around {
            Some(twin) => Some(twin.second.from),
            None => next,
        },
    }
}

/// Where the first bracket starts that starts at a place or behind it.
fn next_start(tree: &Tree, at: Pos) -> Option<Pos>
    requires { IsPlaced (or_nothing tree.now.root) }
    ensures { AnswersFrom (or_nothing tree.now.root) (λ rows. next_start rows at) result }
{
    match &tree.root {
        Some(root) => next(root, START, at),
        None => None,
    }
}

/// Where the first bracket of a node starts that starts at a place or behind it.
#[cycle(next)]
fn next(node: &Node, from: Length, at: Pos) -> Option<Pos>
    requires { Placed node.now from }
    ensures { (kinds : List ℕ) → result ≡ next_known at (known node.now from kinds) }
{
    if node.is_bare() {
        return None;
    }
    if is_left(end_of(node, from), at, true) {
        return None;
    }
    match node.sort() {
        Sort::Pair => {
            let pair = pair_at(node, from);
            from_place(pair.opener, at)
                .or(next_inside(&pair, at))
                .or(next_closer(&pair, at))
        }
        Sort::List => match apart(node) {
            Children::Two(a, b) => {
                let second = end_of(a, from);
                match next(a, from, at) {
                    Some(found) => Some(found),
                    None => next(b, second, at),
                }
            }
            Children::Three(a, b, c) => {
                let second = end_of(a, from);
                let third = end_of(b, second);
                match next(a, from, at) {
                    Some(found) => Some(found),
                    None => match next(b, second, at) {
                        Some(found) => Some(found),
                        None => next(c, third, at),
                    },
                }
            }
        },
        Sort::Unexpected => from_place(lone_at(node, from), at),
        _ => None,
    }
}

#[cycle(next)]
fn next_inside(pair: &PairAt, at: Pos) -> Option<Pos>
    requires { Placed (or_nothing (nows pair.now.inside)) pair.now.begin }
    ensures { (kinds : List ℕ) → result ≡ next_known at (known (or_nothing (nows pair.now.inside)) pair.now.begin kinds) }
{
    match pair.inside {
        Some(inside) => next(inside, pair.begin, at),
        None => None,
    }
}

fn next_closer(pair: &PairAt, at: Pos) -> Option<Pos>
    ensures { result ≡ next_of at pair.now.closer }
{
    match pair.closer {
        Some(closer) => from_place(closer, at),
        None => None,
    }
}

/// Where a mark starts, if that is at a place or behind it.
fn from_place(mark: MarkAt, at: Pos) -> Option<Pos>
    ensures { result ≡ (if is_up_to at (start_of_mark mark) then Some (start_of_mark mark) else None) }
{
    let start = Pos {
        line: mark.line,
        col: mark.from,
    };
    if mark.line < at.line || (mark.line == at.line && mark.from < at.col) {
        None
    } else {
        Some(start)
    }
}
