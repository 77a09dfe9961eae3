//! The injections of a table, which of them hold of scopes, and what they find.

ghost use Rattle.std.specs.Prelude.{◌≡◌, ℕ, ◌+◌, ◌<◌, ◌≤◌, ◌^◌, ◌++◌, [], ◌∷◌, ◌↔◌, All, false, length, map, slice_index_or, Option, None, IfOk, OnOk, IsTrue};
ghost use Rattle.std.specs.Rc.{rc_value};
ghost use Rattle.rule_table.specs.Views.{listed_of};
ghost use Rattle.rule_table.specs.Fits.{IsInjection};
ghost use Rattle.line_defs.specs.Search.{scan};
ghost use Rattle.line_search.specs.Choices.{AreOf, HaveOwners, choice_of_owned};
ghost use Rattle.line_search.specs.Finds.{found_of, IfAt, IfNothing, IsOwner, IsPartFrom};
ghost use Rattle.line_search.specs.Prepared.{prepared, all_prepared, group_choices, ArePrepared, HasRoomFor, holds_of, holding, NoneHolds, prepared_at, found_by_numbers, found_by_prepared};
ghost use Rattle.line_search.specs.Asking.{prepared_of, HasEntry, HasNeeded, AreReady, IsAsked};
ghost use Rattle.line_search.specs.Bests.{kept_of, injected_of, step_by, beaten, starts_earlier, wins_over, IsBest, IfSomeBest, IfBest, IfNone, IfStep, IfNext};
ghost use Rattle.line_defs.specs.Injections.{Kept, Injected as LineInjected, after_one};

use crate::choices::{Choices, Owned};
use crate::find::{Find, Match};
use crate::lists::push_rules;
use onig_match::Work;
use pattern_defs::Flags;
use rule_table::{Injection, RuleId, RuleKind, RuleTable};
use scope_names::Scopes;
use selectors::{Needed, Selector, may_meet};
use std::alloc::{AllocError, Global};
use std::marker::Model;
use std::rc::Rc;
use text_pos::Items;

/// How many lists of scopes are kept with the injections that hold of them.
const MOST_ASKED: u64 = 64;

/// An injection that stands ready.
#[derive(Drop)]
struct Ready {
    selector: Rc<Selector>,
    entry: u64,
    /// Keys that scopes need for it to hold, where it is known that they need some.
    needed: Option<Needed>,
    /// Whether it goes before an ordinary match at the same place.
    first: bool,
    rule: RuleId,
    choices: Rc<Choices>,
}

/// Numbers of injections that are ready.
type Numbers = Items<usize>;

/// Scopes, and which injections hold of them.
#[derive(Drop)]
struct Asked {
    scopes: Scopes,
    numbers: Rc<Numbers>,
}

/// The injections of a table, which of them hold of scopes that were asked for, and their patterns.
#[derive(Drop)]
pub(crate) struct Injected {
    alloc: Global,
    ready: Vec<Ready>,
    asked: Vec<Asked>,
}

/// The best match of injections so far.
#[derive(Clone, Copy)]
pub(crate) struct Best {
    pub(crate) number: usize,
    pub(crate) m: Match,
}

/// How the search of injections goes on behind one: not at all, or with the next.
#[derive(Clone, Copy)]
enum Step {
    Spent,
    /// A match at the place of the search.
    Done(Best),
    Next(Option<Best>),
}

/// What injections find.
#[derive(Clone, Copy)]
pub(crate) enum Bests {
    Spent,
    Kept(Option<Best>),
}

/// Adds the patterns of a rule that is taken as a group.
fn push_group(all: &mut Vec<Owned>, table: &RuleTable, id: RuleId) -> Result<(), AllocError>
    requires { id.0 < length table.now.rules }
    ensures choices { OnOk result (map choice_of_owned all.new.items
        ≡ map choice_of_owned all.old.items ++ group_choices table.now.rules id.0) }
    ensures fit { OnOk result (AreOf (length table.now.rules) table.now.groups (map choice_of_owned all.old.items) →
        AreOf (length table.now.rules) table.now.groups (map choice_of_owned all.new.items)) }
{
    let rule = table.rule(id);
    match rule.kind {
        RuleKind::Group => push_rules(all, table, rule.active.as_slice()),
        _ => push_rules(all, table, &[id]),
    }
}

/// The patterns of a rule that is taken as a group.
fn choices_of(alloc: Global, table: &RuleTable, id: RuleId) -> Result<Choices, AllocError>
    requires { id.0 < length table.now.rules }
    ensures choices { IfOk result (λ choices. choices ≡ group_choices table.now.rules id.0) }
    ensures fit { IfOk result (λ choices. AreOf (length table.now.rules) table.now.groups choices) }
{
    let mut all = Vec::new(alloc);
    push_group(&mut all, table, id)?;
    Choices::of(alloc, all)
}

/// The same, shared with those of the injection before, where it injects the same rule.
fn shared_choices(
    alloc: Global,
    table: &RuleTable,
    ready: &[Ready],
    id: RuleId,
) -> Result<Rc<Choices>, AllocError>
    requires there { id.0 < length table.now.rules }
    requires ready { AreReady table.now ready.now }
    ensures choices { IfOk result (λ choices. rc_value choices ≡ group_choices table.now.rules id.0) }
    ensures fit { IfOk result (λ choices. AreOf (length table.now.rules) table.now.groups (rc_value choices)) }
{
    match ready.last() {
        Some(last) if last.rule == id => last.choices.clone(),
        _ => Ok(Rc::new(alloc, choices_of(alloc, table, id)?)?),
    }
}

/// Makes an injection ready.
fn push_ready(
    alloc: Global,
    table: &RuleTable,
    ready: &mut Vec<Ready>,
    injection: &Injection,
) -> Result<(), AllocError>
    requires fits { IsInjection (length table.now.rules) (listed_of injection.now) }
    requires ready { AreReady table.now ready.old.items }
    ensures ready { OnOk result (AreReady table.now ready.new.items) }
    ensures more { OnOk result (map prepared_of ready.new.items
        ≡ map prepared_of ready.old.items ++ prepared table.now.rules (listed_of injection.now) ∷ []) }
{
    let choices = shared_choices(alloc, table, ready.as_slice(), injection.rule)?;
    ready.push(Ready {
        selector: injection.selector.clone()?,
        entry: injection.entry,
        needed: injection.selector.needed_keys(alloc, injection.entry)?,
        first: injection.priority == -1,
        rule: injection.rule,
        choices,
    })?;
    Ok(())
}

/// The injections of a table, ready.
fn all_ready(alloc: Global, table: &RuleTable) -> Result<Vec<Ready>, AllocError>
    ensures ready { IfOk result (λ ready. AreReady table.now ready.items) }
    ensures all { IfOk result (λ ready. map prepared_of ready.items ≡ all_prepared table.now.rules table.now.injections) }
{
    let mut ready = Vec::new(alloc);
    for injection in table.injections() {
        push_ready(alloc, table, &mut ready, injection)?;
    }
    Ok(ready)
}

/// Whether an injection may hold of scopes, by the keys of their names.
fn may_hold(ready: &Ready, scopes: &Scopes) -> bool
    requires { HasNeeded ready.now }
    ensures { (result ≡ false) → holds_of (prepared_of ready.now) scopes.now ≡ false }
{
    match &ready.needed {
        Some(needed) => may_meet(scopes, needed.as_slice()),
        None => true,
    }
}

/// Whether one of the injections may hold of scopes, by the keys of their names.
fn some_may_hold(ready: &[Ready], scopes: &Scopes) -> bool
    requires { All HasNeeded ready.now }
    ensures { (result ≡ false) → NoneHolds scopes.now (map prepared_of ready.now) }
{
    for one in ready {
        if may_hold(one, scopes) {
            return true;
        }
    }
    false
}

/// Adds the number of an injection, if that holds.
fn push_holding(
    numbers: &mut Numbers,
    number: usize,
    ready: &Ready,
    scopes: &Scopes,
) -> Result<(), AllocError>
    requires entry { HasEntry ready.now }
    requires needed { HasNeeded ready.now }
    ensures { OnOk result (numbers.new ≡ numbers.old ++ holding scopes.now number (prepared_of ready.now ∷ [])) }
{
    if may_hold(ready, scopes) && ready.selector.holds(ready.entry, scopes) {
        return numbers.push(number);
    }
    Ok(())
}

/// Which injections hold of scopes.
fn holding(alloc: Global, ready: &[Ready], scopes: &Scopes) -> Result<Rc<Numbers>, AllocError>
    requires entries { All HasEntry ready.now }
    requires needed { All HasNeeded ready.now }
    ensures { IfOk result (λ numbers. rc_value numbers ≡ holding scopes.now 0 (map prepared_of ready.now)) }
{
    let mut numbers = Numbers::new(alloc);
    for number in 0..ready.len() {
        push_holding(&mut numbers, number, &ready[number], scopes)?;
    }
    Ok(Rc::new(alloc, numbers)?)
}

/// Room for scopes that are asked for, all filled with the answer for none.
fn all_asked(alloc: Global, ready: &[Ready]) -> Result<Vec<Asked>, AllocError>
    requires entries { All HasEntry ready.now }
    requires needed { All HasNeeded ready.now }
    ensures some { IfOk result (λ asked. 0 < length asked.items) }
    ensures asked { IfOk result (λ asked. All (IsAsked (map prepared_of ready.now)) asked.items) }
{
    let numbers = holding(alloc, ready, &Scopes::empty())?;
    let mut asked = Vec::new(alloc);
    for _ in 0..MOST_ASKED {
        asked.push(Asked {
            scopes: Scopes::empty(),
            numbers: numbers.clone()?,
        })?;
    }
    Ok(asked)
}

/// Where the injections are kept that hold of scopes. They are asked only where others stand there.
fn ask(
    alloc: Global,
    ready: &[Ready],
    asked: &mut Vec<Asked>,
    scopes: &Scopes,
) -> Result<usize, AllocError>
    requires entries { All HasEntry ready.now }
    requires needed { All HasNeeded ready.now }
    requires some { 0 < length asked.old.items }
    requires asked { All (IsAsked (map prepared_of ready.now)) asked.old.items }
    ensures some { 0 < length asked.new.items }
    ensures asked { All (IsAsked (map prepared_of ready.now)) asked.new.items }
    ensures there { IfOk result (λ at. at < length asked.new.items) }
    ensures told { IfOk result (λ at. (one : Asked) → rc_value (slice_index_or asked.new.items at one).numbers
        ≡ holding scopes.now 0 (map prepared_of ready.now)) }
{
    let at = (scopes.number() % asked.len() as u64) as usize;
    if asked[at].scopes.same(scopes) {
        return Ok(at);
    }
    asked[at] = Asked {
        scopes: scopes.copy()?,
        numbers: holding(alloc, ready, scopes)?,
    };
    Ok(at)
}

/// Whether a match starts before the best so far.
fn is_earlier(m: Match, best: Option<Best>) -> bool
    ensures { result ≡ starts_earlier m best }
{
    match best {
        None => true,
        Some(best) => m.from < best.m.from,
    }
}

/// What an injection finds.
fn find_one(
    ready: &[Ready],
    number: usize,
    work: &mut Work,
    text: &[char],
    from: u32,
    flags: Flags,
) -> Find
    requires short { length text.now < 2 ^ 31 }
    requires inside { from ≤ length text.now }
    requires room { All (HasRoomFor work.old.room) (map prepared_of ready.now) }
    requires number { number < length ready.now }
    ensures budget { work.new.budget ≡ work.old.budget }
    ensures room { work.new.room ≡ work.old.room }
    ensures found { found_of result work.new.hit
        ≡ scan (record { text = text.now; place = from; flags = flags; budget = work.old.budget })
        (prepared_at (map prepared_of ready.now) number).choices }
    ensures part { IfAt result (IsPartFrom from (length text.now) work.new.hit) }
    ensures owner { (rules : ℕ) → HaveOwners rules (prepared_at (map prepared_of ready.now) number).choices →
        IfAt result (λ m. IsOwner rules m.of) }
    ensures stays { IfNothing result (work.new.hit ≡ work.old.hit) }
{
    ready[number].choices.find(work, text, from, flags).find
}

/// How the search goes on behind a match that starts before the best so far.
fn beaten(number: usize, m: Match, from: u32) -> Step
    ensures { result ≡ beaten number m from }
{
    let best = Best { number, m };
    if m.from == from {
        Step::Done(best)
    } else {
        Step::Next(Some(best))
    }
}

/// Weighs what an injection finds against the best so far.
fn weigh(
    ready: &[Ready],
    number: usize,
    best: Option<Best>,
    work: &mut Work,
    text: &[char],
    from: u32,
    flags: Flags,
) -> Step
    requires short { length text.now < 2 ^ 31 }
    requires inside { from ≤ length text.now }
    requires room { All (HasRoomFor work.old.room) (map prepared_of ready.now) }
    requires number { number < length ready.now }
    requires best { IfSomeBest best
        (IsBest (record { text = text.now; place = from; flags = flags; budget = work.old.budget })
        (map prepared_of ready.now)) }
    ensures budget { work.new.budget ≡ work.old.budget }
    ensures room { work.new.room ≡ work.old.room }
    ensures step { (next : Option Kept → LineInjected) → after_one
        (record { text = text.now; place = from; flags = flags; budget = work.old.budget })
        (scan (record { text = text.now; place = from; flags = flags; budget = work.old.budget })
        (prepared_at (map prepared_of ready.now) number).choices)
        (prepared_at (map prepared_of ready.now) number).first
        (kept_of (record { text = text.now; place = from; flags = flags; budget = work.old.budget })
        (map prepared_of ready.now) best) next
        ≡ step_by (record { text = text.now; place = from; flags = flags; budget = work.old.budget })
        (map prepared_of ready.now) result next }
    ensures best { IfStep result
        (IsBest (record { text = text.now; place = from; flags = flags; budget = work.old.budget })
        (map prepared_of ready.now)) }
    ensures stays { IfNext result ((best ≡ None) × (work.new.hit ≡ work.old.hit)) }
{
    match find_one(ready, number, work, text, from, flags) {
        Find::Nothing => Step::Next(best),
        Find::Spent => Step::Spent,
        Find::At(m) => {
            if is_earlier(m, best) {
                return beaten(number, m, from);
            }
            Step::Next(best)
        }
    }
}

/// What the injections of some numbers find, in order.
fn best_of(
    ready: &[Ready],
    numbers: &[usize],
    work: &mut Work,
    text: &[char],
    from: u32,
    flags: Flags,
) -> Bests
    requires short { length text.now < 2 ^ 31 }
    requires inside { from ≤ length text.now }
    requires room { All (HasRoomFor work.old.room) (map prepared_of ready.now) }
    requires numbers { All (λ number. number < length ready.now) numbers.now }
    ensures budget { work.new.budget ≡ work.old.budget }
    ensures room { work.new.room ≡ work.old.room }
    ensures found { found_by_numbers (record { text = text.now; place = from; flags = flags; budget = work.old.budget })
        (map prepared_of ready.now) numbers.now None
        ≡ injected_of (record { text = text.now; place = from; flags = flags; budget = work.old.budget })
        (map prepared_of ready.now) result }
    ensures best { IfBest result
        (IsBest (record { text = text.now; place = from; flags = flags; budget = work.old.budget })
        (map prepared_of ready.now)) }
    ensures stays { IfNone result (work.new.hit ≡ work.old.hit) }
{
    let mut best = None;
    for number in numbers {
        match weigh(ready, *number, best, work, text, from, flags) {
            Step::Spent => return Bests::Spent,
            Step::Done(first) => return Bests::Kept(Some(first)),
            Step::Next(next) => best = next,
        }
    }
    Bests::Kept(best)
}

/// Whether the best match of injections wins over the ordinary one.
fn wins(first: bool, best: Match, ordinary: Find) -> bool
    ensures { result ≡ wins_over first best ordinary }
{
    match ordinary {
        Find::At(m) => best.from < m.from || first && best.from == m.from,
        _ => true,
    }
}

impl Model for Injected {
    ghost use Rattle.std.specs.Prelude.{List};
    ghost use Rattle.line_search.specs.Prepared.{Prepared};

    ghost Value = { List Prepared };

    ghost use Rattle.line_search.specs.Asking.{prepared_in, IsInjected};

    ghost view = { prepared_in };

    ghost invariant = { IsInjected };
}

impl Injected {
    pub(crate) fn of(alloc: Global, table: &RuleTable) -> Result<Injected, AllocError>
        ensures all { IfOk result (λ injected. injected ≡ all_prepared table.now.rules table.now.injections) }
        ensures fit { IfOk result (λ injected. ArePrepared (length table.now.rules) table.now.groups injected) }
    {
        let ready = all_ready(alloc, table)?;
        let asked = all_asked(alloc, ready.as_slice())?;
        Ok(Injected {
            alloc,
            ready,
            asked,
        })
    }

    pub(crate) fn is_empty(&self) -> bool
        ensures { IsTrue result ↔ (self.now ≡ []) }
    {
        self.ready.is_empty()
    }

    /// What those find that hold of scopes.
    pub(crate) fn best(
        &mut self,
        work: &mut Work,
        scopes: &Scopes,
        text: &[char],
        from: u32,
        flags: Flags,
    ) -> Result<Bests, AllocError>
        requires short { length text.now < 2 ^ 31 }
        requires inside { from ≤ length text.now }
        requires room { All (HasRoomFor work.old.room) self.old }
        ensures same { self.new ≡ self.old }
        ensures budget { work.new.budget ≡ work.old.budget }
        ensures room { work.new.room ≡ work.old.room }
        ensures found { IfOk result (λ bests. found_by_prepared
            (record { text = text.now; place = from; flags = flags; budget = work.old.budget }) scopes.now self.old None
            ≡ injected_of (record { text = text.now; place = from; flags = flags; budget = work.old.budget }) self.old bests) }
        ensures best { IfOk result (λ bests. IfBest bests
            (IsBest (record { text = text.now; place = from; flags = flags; budget = work.old.budget }) self.old)) }
        ensures stays { IfOk result (λ bests. IfNone bests (work.new.hit ≡ work.old.hit)) }
    {
        if !some_may_hold(self.ready.as_slice(), scopes) {
            return Ok(Bests::Kept(None));
        }
        let at = ask(self.alloc, self.ready.as_slice(), &mut self.asked, scopes)?;
        let numbers = &self.asked[at].numbers;
        Ok(best_of(
            self.ready.as_slice(),
            numbers.as_slice(),
            work,
            text,
            from,
            flags,
        ))
    }

    /// Whether the best match wins over the ordinary one.
    pub(crate) fn wins(&self, best: Best, ordinary: Find) -> bool
        requires { best.number < length self.now }
        ensures { result ≡ wins_over (prepared_at self.now best.number).first best.m ordinary }
    {
        wins(self.ready[best.number].first, best.m, ordinary)
    }

    /// The best match made again at its place, since `work` tells what the last match captured.
    pub(crate) fn again(&self, best: Best, work: &mut Work, text: &[char], flags: Flags) -> Find
        requires short { length text.now < 2 ^ 31 }
        requires inside { best.m.from ≤ length text.now }
        requires number { best.number < length self.now }
        requires room { All (HasRoomFor work.old.room) self.now }
        ensures budget { work.new.budget ≡ work.old.budget }
        ensures room { work.new.room ≡ work.old.room }
        ensures found { found_of result work.new.hit
            ≡ scan (record { text = text.now; place = best.m.from; flags = flags; budget = work.old.budget })
            (prepared_at self.now best.number).choices }
        ensures part { IfAt result (IsPartFrom best.m.from (length text.now) work.new.hit) }
        ensures owner { (rules groups : ℕ) → ArePrepared rules groups self.now → IfAt result (λ m. IsOwner rules m.of) }
    {
        find_one(
            self.ready.as_slice(),
            best.number,
            work,
            text,
            best.m.from,
            flags,
        )
    }
}
