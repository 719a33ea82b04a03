// Rows and windows through projections.
ghost use Rattle.std.specs.Prelude.{◌≡◌, ◌++◌, [], IfOk, OnOk, option_copied};
ghost use Rattle.std.specs.List.{cons_option};
ghost use Rattle.cql_window.specs.Projection.{projected};
ghost use Rattle.cql_window.specs.Through.{narrowed, wide_window};

use crate::copies::copies_at;
use crate::projection::takes_all;
use crate::window::Window;
use cql_value::{Items, Row, Timed};
use sqlite_items::at;
use std::alloc::{AllocError, Global};

/// The row of the values in the projection's columns. Where these are all, it is the same row with
/// one more holder, and nothing is copied.
#[inline(always)]
pub fn row_at(alloc: Global, row: &Row, projection: &[usize]) -> Result<Row, AllocError>
    ensures { IfOk result (λ r. r ≡ projected row.now projection.now) }
{
    if takes_all(projection, row.len()) {
        row.share()
    } else {
        picked(alloc, row, projection)
    }
}

// The same by a copy of each value. It stays a call, so that a row that is shared costs little.
#[inline(never)]
fn picked(alloc: Global, row: &Row, projection: &[usize]) -> Result<Row, AllocError>
    ensures { IfOk result (λ r. r ≡ projected row.now projection.now) }
{
    let values = copies_at(alloc, row.values(), projection)?;
    Row::new(alloc, values)
}

/// The element with the values in the projection's columns, by `row_at`.
pub fn timed_at(alloc: Global, timed: &Timed, projection: &[usize]) -> Result<Timed, AllocError>
    ensures { IfOk result (λ t. t ≡ narrowed projection.now timed.now) }
{
    let row = row_at(alloc, timed.row(), projection)?;
    Ok(Timed::new(timed.at(), row))
}

// A column, if there is one, goes behind the others.
fn push_column(wide: &mut Items<usize>, column: Option<&usize>) -> Result<(), AllocError>
    ensures { OnOk result (wide.new ≡ wide.old ++ cons_option (option_copied column.entry) []) }
{
    match column {
        None => Ok(()),
        Some(column) => wide.push(*column),
    }
}

// Where columns of the projection stand in the whole row.
fn wide_columns(
    alloc: Global,
    projection: &[usize],
    columns: &[usize],
) -> Result<Items<usize>, AllocError>
    ensures { IfOk result (λ wide. wide ≡ projected projection.now columns.now) }
{
    let mut wide = Items::new(alloc);
    for column in columns {
        push_column(&mut wide, at(projection, *column))?;
    }
    Ok(wide)
}

/// A window over the projection's columns, as one over the whole row. Only parts take memory.
pub fn wide_window(
    alloc: Global,
    projection: &[usize],
    window: Window,
) -> Result<Window, AllocError>
    ensures { IfOk result (λ wide. wide ≡ wide_window projection.now window) }
{
    match window {
        Window::Parts { columns, count } => Ok(Window::Parts {
            columns: wide_columns(alloc, projection, columns.as_slice())?,
            count,
        }),
        other => Ok(other),
    }
}
