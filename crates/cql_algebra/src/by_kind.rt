// Outputs by kind.
ghost use Rattle.std.specs.Prelude.{◌≡◌, IfOk};
ghost use Rattle.cql_algebra.specs.ByKind.{output_of};

use crate::relation::Relation;
use crate::told::Output;
use cql_plan::OutputKind;
use std::alloc::{AllocError, Global};

/// The output at an instant, by the relation of the instant before and that of this one. A fault
/// of this instant comes first, then one of the instant before, which Rstream doesn't ask.
pub fn output(
    alloc: Global,
    kind: OutputKind,
    before: &Relation,
    now: &Relation,
) -> Result<Output, AllocError>
    ensures { IfOk result (λ o. o ≡ output_of kind before.now now.now) }
{
    match (kind, before, now) {
        (_, _, Relation::Fault(fault)) => Ok(Output::Fault(*fault)),
        (OutputKind::Rstream, _, Relation::Bag(now)) => Ok(Output::Rows(now.listing(alloc)?)),
        (_, Relation::Fault(fault), _) => Ok(Output::Fault(*fault)),
        (OutputKind::Istream, Relation::Bag(before), Relation::Bag(now)) => {
            Ok(Output::Rows(now.excess(alloc, before)?))
        }
        (OutputKind::Dstream, Relation::Bag(before), Relation::Bag(now)) => {
            Ok(Output::Rows(before.excess(alloc, now)?))
        }
        (OutputKind::Signed, Relation::Bag(before), Relation::Bag(now)) => {
            let plus = now.excess(alloc, before)?;
            let minus = before.excess(alloc, now)?;
            Ok(Output::Signed { plus, minus })
        }
    }
}
