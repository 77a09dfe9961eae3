//! Takes all marks of a source from its place on, in order.

ghost use Rattle.std.specs.Prelude.{◌≡◌, ◌+◌, ◌≤◌, ◌<◌, [], length, IfOk};
ghost use Rattle.mark_source.specs.Source.{ahead, AreMarked};
ghost use Rattle.reuse_parser.specs.Parsing.{last_place, AllFit, given_after};

use mark_source::MarkSource;
use pairing_defs::Mark;
use std::alloc::{AllocError, Global};
use std::sync::ledger::Ledger;
use step_count::Steps;

/// All marks from the source's place on, in order. One step is taken for each.
pub(crate) fn gather<S: MarkSource, M: Ledger>(
    alloc: Global,
    source: &mut S,
    steps: &mut Steps<M>,
) -> Result<Vec<Mark>, AllocError>
    ensures all { IfOk result (λ v. v.items ≡ ahead (S.told source.old)) }
    ensures none { IfOk result (λ v. ahead (S.told source.new) ≡ []) }
    ensures place { IfOk result (λ v. (S.told source.new).place ≡ last_place (S.told source.old).place v.items) }
    ensures counted { IfOk result (λ v. steps.new ≡ steps.old + length (ahead (S.told source.old))) }
    ensures few { steps.new ≤ steps.old + length (ahead (S.told source.old)) }
    ensures fit { IfOk result (λ v. AllFit v.items) }
    ensures given { IfOk result (λ v. (S.told source.new).given ≡ given_after (length v.items) (S.told source.old).given) }
    ensures few_given { (S.told source.new).given ≤ (S.told source.old).given + length (ahead (S.told source.old)) }
    ensures lines { (S.told source.new).lines ≡ (S.told source.old).lines }
    ensures marked { AreMarked (S.told source.old).lines }
{
    let mut all = Vec::new(alloc);
    while source.peek().is_some() {
        if let Some(mark) = source.next(steps) {
            all.push(mark)?;
        }
    }
    Ok(all)
}
