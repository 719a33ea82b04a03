// Copies of what stands in the columns of a projection.
ghost use Rattle.std.specs.Prelude.{◌≡◌, ◌++◌, [], IfOk, OnOk, option_copied};
ghost use Rattle.std.specs.List.{cons_option};
ghost use Rattle.cql_window.specs.Projection.{projected};

use cql_value::TryClone;
use sqlite_items::at;
use std::alloc::{AllocError, Global};

// A copy of a value, if there is one, goes behind the others.
fn push_copy<T: TryClone>(
    alloc: Global,
    copies: &mut Vec<T>,
    value: Option<&T>,
) -> Result<(), AllocError>
    ensures { OnOk result (copies.new.items ≡ copies.old.items ++ cons_option (option_copied value.entry) []) }
{
    match value {
        None => Ok(()),
        Some(value) => {
            copies.push(value.try_clone(alloc)?)?;
            Ok(())
        }
    }
}

/// Copies of the values in the projection's columns.
pub fn copies_at<T: TryClone>(
    alloc: Global,
    values: &[T],
    projection: &[usize],
) -> Result<Vec<T>, AllocError>
    ensures { IfOk result (λ copies. copies.items ≡ projected values.now projection.now) }
{
    let mut copies = Vec::with_capacity(alloc, projection.len())?;
    for column in projection {
        push_copy(alloc, &mut copies, at(values, *column))?;
    }
    Ok(copies)
}
