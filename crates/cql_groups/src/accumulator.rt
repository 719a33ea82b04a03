// What is kept of the rows of a group: of a column its exact sum, or its values.
ghost use Rattle.std.specs.Prelude.{◌≡◌, [], map, slice_get, IfOk, OnOk};
ghost use Rattle.std.specs.List.{list_any};
ghost use Rattle.cql_bag.specs.Changes.{changed};
ghost use Rattle.cql_plan.specs.Expr.{within};
ghost use Rattle.cql_algebra.specs.ShapeLaws.{number_in};
ghost use Rattle.cql_groups.specs.Parts.{part_of, column_of, moved, part_changed, value_change, is_outside};

use cql_bag::{Bag, Change};
use cql_plain::key;
use cql_value::Value;
use sqlite_items::at;
use std::alloc::{AllocError, Global};

/// What items ask of a column: the sum of its numbers, or its values.
#[derive(Clone, Copy, PartialEq, Eq)]
pub(crate) enum AccumulatorKind {
    Sum(usize),
    Values(usize),
}

/// What is kept of a column: the exact sum of its numbers, or the bag of its values.
#[derive(Drop)]
pub(crate) enum Accumulator {
    Sum(usize, i128),
    Values(usize, Bag),
}

// The number of the column, or 0.
fn number_at(row: &[Value], column: usize) -> i128
    ensures { result ≡ number_in (slice_get row.now column) }
{
    match at(row, column) {
        Some(Value::Number(number)) => *number as i128,
        _ => 0,
    }
}

// The sum after a row came or went. So few rows as a group may have can't bring it out of i128.
fn moved(plus: bool, sum: i128, number: i128) -> Result<i128, AllocError>
    ensures { IfOk result (λ s. s ≡ moved plus sum number) }
{
    if plus {
        sum.checked_add(number).ok_or(AllocError)
    } else {
        sum.checked_sub(number).ok_or(AllocError)
    }
}

// The value of a column comes or goes.
fn change_values(
    alloc: Global,
    column: usize,
    values: &mut Bag,
    change: &Change,
) -> Result<(), AllocError>
    ensures { OnOk result (values.new ≡ changed (value_change column change.now) values.old) }
{
    let value = Change {
        plus: change.plus,
        row: key(alloc, &[column], change.row.values())?,
    };
    values.change(alloc, &value)
}

/// A sum as a number, where it is in i64.
pub(crate) fn number_within(sum: i128) -> Option<Value>
    ensures { result ≡ within sum }
{
    match i64::try_from(sum) {
        Ok(number) => Some(Value::Number(number)),
        Err(_) => None,
    }
}

impl Accumulator {
    // Of no rows.
    fn new(alloc: Global, asked: AccumulatorKind) -> Accumulator
        ensures { result ≡ part_of [] asked }
    {
        match asked {
            AccumulatorKind::Sum(column) => Accumulator::Sum(column, 0),
            AccumulatorKind::Values(column) => Accumulator::Values(column, Bag::new(alloc)),
        }
    }

    // The column that it is of.
    fn column(&self) -> usize
        ensures { result ≡ column_of self.now }
    {
        match self {
            Accumulator::Sum(column, _) => *column,
            Accumulator::Values(column, _) => *column,
        }
    }

    // A row comes or goes.
    fn change(&mut self, alloc: Global, change: &Change) -> Result<(), AllocError>
        ensures { OnOk result (self.new ≡ part_changed change.now self.old) }
    {
        let column = self.column();
        match self {
            Accumulator::Sum(_, sum) => {
                *sum = moved(change.plus, *sum, number_at(change.row.values(), column))?;
                Ok(())
            }
            Accumulator::Values(_, values) => change_values(alloc, column, values, change),
        }
    }

    // Whether it is a sum outside i64.
    fn is_outside(&self) -> bool
        ensures { result ≡ is_outside self.now }
    {
        match self {
            Accumulator::Sum(_, sum) => number_within(*sum).is_none(),
            Accumulator::Values(_, _) => false,
        }
    }
}

/// Of no rows.
pub(crate) fn new_parts(
    alloc: Global,
    asked: &[AccumulatorKind],
) -> Result<Vec<Accumulator>, AllocError>
    ensures { IfOk result (λ parts. parts.items ≡ map (part_of []) asked.now) }
{
    let mut parts = Vec::new(alloc);
    for one in asked {
        parts.push(Accumulator::new(alloc, *one))?;
    }
    Ok(parts)
}

/// A row comes or goes.
pub(crate) fn change_parts(
    alloc: Global,
    parts: &mut Vec<Accumulator>,
    change: &Change,
) -> Result<(), AllocError>
    ensures { OnOk result (parts.new.items ≡ map (part_changed change.now) parts.old.items) }
{
    for i in 0..parts.len() {
        parts[i].change(alloc, change)?;
    }
    Ok(())
}

/// Whether a sum is outside i64.
pub(crate) fn some_outside(parts: &[Accumulator]) -> bool
    ensures { result ≡ list_any is_outside parts.now }
{
    for part in parts {
        if part.is_outside() {
            return true;
        }
    }
    false
}
