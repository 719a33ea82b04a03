// Shapes with groups.
ghost use Rattle.std.specs.Prelude.{◌≡◌, ◌⊎◌, [], ◌∷◌, Some, None, IfOk, IfErr, OnOk, OnErr};
ghost use Rattle.std.specs.List.{list_any};
ghost use Rattle.cql_bag.specs.Changes.{Grows};
ghost use Rattle.cql_plan.specs.Fit.{is_aggregate, is_grouped};
ghost use Rattle.cql_algebra.specs.Shape.{is_count, all_are, groups_in, groups_value, key_groups};
ghost use Rattle.cql_ops.specs.declared.error.OpError.TheVariants.{NoMemory, Overflow};
ghost use Rattle.cql_plain.specs.Shaped.{KeepsGroups, TellsShape, FailsToShape};

use crate::difference::tell_difference;
use crate::group::{groups, row_of_group};
use cql_algebra::law::node_types_law;
use cql_bag::{Bag, Change};
use cql_ops::{Meter, OpError};
use cql_plan::{Item, Shape};
use std::alloc::Global;

fn has_aggregate(items: &[Item]) -> bool
    ensures { result ≡ list_any is_aggregate items.now }
{
    for item in items {
        if !matches!(item, Item::Value(_)) {
            return true;
        }
    }
    false
}

fn only_counts(items: &[Item]) -> bool
    ensures { result ≡ all_are is_count items.now }
{
    for item in items {
        if !matches!(item, Item::Count) {
            return false;
        }
    }
    true
}

// The items on the whole bag, in one row.
fn shape_whole(alloc: Global, items: &[Item], bag: &Bag, meter: &mut Meter) -> Result<Bag, OpError>
    ensures ok { IfOk result (λ b. groups_value items.now (bag.now ∷ []) ≡ Some b) }
    ensures err { IfErr result (λ e. (e ≡ NoMemory) ⊎ ((e ≡ Overflow) × (groups_value items.now (bag.now ∷ []) ≡ None))) }
{
    match row_of_group(alloc, items, bag, meter)? {
        Some(row) => {
            let mut shaped = Bag::new(alloc);
            shaped.add(row)?;
            Ok(shaped)
        }
        None => Err(OpError::Overflow),
    }
}

// The items on the rows of each key.
fn shape_keys(
    alloc: Global,
    columns: &[usize],
    items: &[Item],
    bag: &Bag,
    meter: &mut Meter,
) -> Result<Bag, OpError>
    ensures ok { IfOk result (λ b. groups_value items.now (key_groups columns.now bag.now) ≡ Some b) }
    ensures err { IfErr result (λ e. (e ≡ NoMemory) ⊎ ((e ≡ Overflow) × (groups_value items.now (key_groups columns.now bag.now) ≡ None))) }
{
    let found = groups(alloc, columns, bag, meter)?;
    let mut shaped = Bag::new(alloc);
    for (_, group) in found.iter() {
        match row_of_group(alloc, items, group, meter)? {
            Some(row) => shaped.add(row)?,
            None => return Err(OpError::Overflow),
        }
    }
    Ok(shaped)
}

/// Whether it has grouped columns, or an aggregate.
pub(crate) fn is_grouped(shape: &Shape) -> bool
    ensures { result ≡ is_grouped shape.now }
{
    shape.groups.len() != 0 || has_aggregate(shape.items.as_slice())
}

// The value of a shape with groups.
fn shape_groups(alloc: Global, shape: &Shape, bag: &Bag, meter: &mut Meter) -> Result<Bag, OpError>
    ensures ok { IfOk result (λ b. groups_value shape.now.items (groups_in shape.now bag.now) ≡ Some b) }
    ensures err { IfErr result (λ e. (e ≡ NoMemory) ⊎ ((e ≡ Overflow) × (groups_value shape.now.items (groups_in shape.now bag.now) ≡ None))) }
{
    if shape.groups.len() != 0 {
        shape_keys(
            alloc,
            shape.groups.as_slice(),
            shape.items.as_slice(),
            bag,
            meter,
        )
    } else if bag.is_empty() && !only_counts(shape.items.as_slice()) {
        Ok(Bag::new(alloc))
    } else {
        shape_whole(alloc, shape.items.as_slice(), bag, meter)
    }
}

/// Tells the changes of a shape with groups, whose value is computed anew, in steps over its rows; or
/// `Overflow` where a SUM is outside i64.
pub(crate) fn emit_groups(
    alloc: Global,
    shape: &Shape,
    port: &Bag,
    told: &mut Bag,
    meter: &mut Meter,
    out: &mut Vec<Change>,
) -> Result<(), OpError>
    requires { KeepsGroups shape.now port.now told.old }
    ensures told { OnOk result (TellsShape shape.now port.now told.old told.new out.old.items out.new.items) }
    ensures keeps { OnOk result (KeepsGroups shape.now port.now told.new) }
    ensures kept { OnErr result (Grows out.old.items out.new.items) }
    ensures err { IfErr result (FailsToShape shape.now port.now) }
{
    node_types_law();
    let value = shape_groups(alloc, shape, port, meter)?;
    tell_difference(alloc, told, &value, out)?;
    *told = value;
    Ok(())
}
