// The changes from one bag to another.
ghost use Rattle.std.specs.Prelude.{OnOk, OnErr};
ghost use Rattle.cql_bag.specs.Changes.{Grows};
ghost use Rattle.cql_plain.specs.Telling.{TellsOf};

use cql_bag::{Bag, Change};
use std::alloc::{AllocError, Global};

/// Adds to the end of `out` the changes from the old bag to the new one, which have only rows of
/// the bags' columns.
pub(crate) fn tell_difference(
    alloc: Global,
    old: &Bag,
    new: &Bag,
    out: &mut Vec<Change>,
) -> Result<(), AllocError>
    ensures ok { OnOk result (TellsOf out.old.items out.new.items old.now new.now) }
    ensures err { OnErr result (Grows out.old.items out.new.items) }
{
    cql_bag::tell_difference(alloc, old, new, out)
}
