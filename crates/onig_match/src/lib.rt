//! One attempt of a pattern at a place of a text, by a stack of the ways that are still open. The order of ways is
//! that of Oniguruma's RE; the budget of visits is this project's own.
//!
//! # How an attempt goes
//!
//! A pattern is numbered lists of nodes. `(a)*b` is three: list 0 is the character `a`, list 1 is group 1 over list 0,
//! and list 2, the whole, is a greedy repeat of list 1 and then the character `b`. The state of an attempt (`Area`) is
//! what groups took (`captures`), what is still to match behind the list in hand (`cells`, each with the number of the
//! cell behind it), places to go back to (`entries`), and what groups took before they took something else (`trail`).
//! A step is a place in a list and one in the text (`Go`), or an end of the list in hand (`Found`, `Failed`). Each `Go`
//! is a visit: it looks at the first of what is still to match. Here is the attempt at 0 of the text `ab`:
//!
//! | visit | first of what is still to match, at | what is done |
//! |---|---|---|
//! | 1 | the repeat, at 0 | cell 1: iteration 1, begun at 0. It may also be left out, so entry 1: the rest of list 2 (`b`), at 0, with one cell and no change. On with list 1 before cell 1 |
//! | 2 | group 1, at 0 | cell 2: the end of group 1 from 0. On with list 0 before cell 2 |
//! | 3 | `a`, at 0 | it stands there: on behind it at 1 |
//! | 4 | list 0 is at its end: the end of group 1, at 1 | group 1 took 0 to 1; the trail keeps that it had nothing. On with list 1 behind its group |
//! | 5 | list 1 is at its end: iteration 1, at 1 | it took something, so another may follow. Cell 3: iteration 2, begun at 1; entry 2: the rest of list 2, at 1, with three cells and one change |
//! | 6 | group 1, at 1 | cell 4: the end of group 1 from 1 |
//! | 7 | `a`, at 1 | `b` stands there: failed. Entry 2 is taken: cells are cut to three, the trail stays at one change, so group 1 keeps 0 to 1. On with the rest of list 2, at 1 |
//! | 8 | `b`, at 1 | it stands there: on at 2 |
//! | 9 | list 2 is at its end, and there is no cell behind it | found, to 2. Entry 1, another way, is dropped. No entry is left: a hit from 0 to 2, with group 1 from 0 to 1 |
//!
//! With a budget of 8 visits the answer is `Spent`. Were the text `ac`, visit 8 would fail and entry 1 be taken: the
//! cells are cut to one, the trail to none, which unsets group 1; `b` fails at 0, no entry is left, and the attempt
//! misses.
//!
//! Lookaround and atomic groups are attempts of their own on the same area: the node makes an entry that says how to go
//! on (`AfterAhead`, `AfterBehind`, `AfterAtomic`), and their list is run before no cell. Where it ends, all entries
//! above that one are dropped, as their ways aren't wanted any more (`after_hit`); where it fails, the entry is reached
//! by going back (`after_miss`). The alternatives of a choice are one entry that moves on from way to way.
//!
//! A greedy repeat of one single character is done in one step (`visit_run`): it takes all characters that it may,
//! and their visits are charged at once, two for each and one for the look at which it ended. In the text `aab` the
//! visits 1 to 6 of `a*b` are one step, and leave one entry (`GiveBack`) that stands for the rest `b` at 1 and then
//! at 0. So are the visits of alternatives, of one iteration more and of a lookahead's body that miss by their first
//! character (`early_miss`): they make no cell and no entry.
#![tactic(auto)]

mod anchors;
mod area;
mod backs;
mod captures;
mod cells;
mod early;
mod entries;
pub mod laws;
mod pile;
mod returns;
mod runs;
mod searched;
mod visits;
pub mod work;

pub use laws::a_greater_budget_changes_no_answer;
pub use pattern_defs::{Flags, Outcome, Place};
pub use work::{Work, attempt};
