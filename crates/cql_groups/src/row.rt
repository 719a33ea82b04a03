// The row of a group, from what is kept of it.
ghost use Rattle.std.specs.Prelude.{◌≡◌, ◌<◌, ◌^◌, IfOk};
ghost use Rattle.std.specs.Option.{option_copied};
ghost use Rattle.cql_algebra.specs.GroupChanges.{first_of, last_of};
ghost use Rattle.cql_groups.specs.Layouts.{sum_in, values_in, source_value, row_of_parts};

use crate::accumulator::{Accumulator, number_within};
use crate::layout::ItemSource;
use cql_bag::Bag;
use cql_value::{Row, Value};
use sqlite_items::at;
use std::alloc::{AllocError, Global};

// The sum that is kept, where it is in i64.
fn sum_in(part: Option<&Accumulator>) -> Option<Value>
    ensures { result ≡ sum_in (option_copied part.entry) }
{
    match part {
        Some(Accumulator::Sum(_, sum)) => number_within(*sum),
        _ => None,
    }
}

// The least of the values that are kept.
fn least(part: Option<&Accumulator>) -> Option<&Value>
    ensures { option_copied result ≡ first_of (values_in (option_copied part.entry)) }
{
    match part {
        Some(Accumulator::Values(_, values)) => match values.first() {
            Some(row) => at(row.values(), 0),
            None => None,
        },
        _ => None,
    }
}

// The last of a column's values.
fn last(values: &Bag) -> Option<&Value>
    ensures { option_copied result ≡ last_of values.now }
{
    match values.entries().next_back() {
        Some((row, _)) => at(row.values(), 0),
        None => None,
    }
}

// The greatest of the values that are kept.
fn greatest(part: Option<&Accumulator>) -> Option<&Value>
    ensures { option_copied result ≡ last_of (values_in (option_copied part.entry)) }
{
    match part {
        Some(Accumulator::Values(_, values)) => last(values),
        _ => None,
    }
}

fn copy_of(alloc: Global, value: Option<&Value>) -> Result<Option<Value>, AllocError>
    ensures { IfOk result (λ v. v ≡ option_copied value.entry) }
{
    match value {
        Some(value) => Ok(Some(value.try_clone(alloc)?)),
        None => Ok(None),
    }
}

impl ItemSource {
    // The item's value, by how many rows there are, one of them, and what is kept.
    fn value(
        &self,
        alloc: Global,
        size: u64,
        sample: &Row,
        parts: &[Accumulator],
    ) -> Result<Option<Value>, AllocError>
        requires { size < 2 ^ 63 }
        ensures { IfOk result (λ v. v ≡ source_value size sample.now parts.now self.now) }
    {
        match self {
            ItemSource::Column(column) => copy_of(alloc, at(sample.values(), *column)),
            ItemSource::Count => Ok(Some(Value::Number(size as i64))),
            ItemSource::Sum(index) => Ok(sum_in(at(parts, *index))),
            ItemSource::Least(index) => copy_of(alloc, least(at(parts, *index))),
            ItemSource::Greatest(index) => copy_of(alloc, greatest(at(parts, *index))),
        }
    }
}

/// The row of the items, unless one has no value.
pub(crate) fn row_of_parts(
    alloc: Global,
    sources: &[ItemSource],
    size: u64,
    sample: &Row,
    parts: &[Accumulator],
) -> Result<Option<Row>, AllocError>
    requires { size < 2 ^ 63 }
    ensures { IfOk result (λ r. r ≡ row_of_parts sources.now size sample.now parts.now) }
{
    let mut values = Vec::with_capacity(alloc, sources.len())?;
    for source in sources {
        match source.value(alloc, size, sample, parts)? {
            Some(value) => values.push_reserved(value),
            None => return Ok(None),
        }
    }
    Ok(Some(Row::new(alloc, values)?))
}
