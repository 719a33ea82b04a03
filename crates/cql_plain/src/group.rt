// The items of a shape on the groups of a bag.
ghost use Rattle.std.specs.Prelude.{◌≡◌, ◌≤◌, ◌++◌, [], ◌∷◌, length, None, IfOk, IsTrue, OnOk};
ghost use Rattle.std.specs.Option.{option_copied, option_map, unwrap_or};
ghost use Rattle.std.specs.Map.{lookup};
ghost use Rattle.std.specs.BTreeMap.{is_at, insert_entry};
ghost use Rattle.cql_value.specs.Order.{row_cmp};
ghost use Rattle.cql_algebra.specs.Shape.{best_from, item_over, items_over, key_of, is_first};
ghost use Rattle.cql_bag.specs.Bag.{Counts, IsBag, put_all};
ghost use Rattle.cql_bag.specs.Law.{ArePositive};
ghost use Rattle.cql_plain.specs.Adding.{TakesRun, TakesGroup};
ghost use Rattle.cql_plain.specs.Grouping.{groups_by, entries_from};

use cql_algebra::{evaluate, sum_of};
use cql_bag::Bag;
use cql_bag::law::{own_entries, put_all_counts, same_counts};
use cql_ops::Meter;
use cql_plan::Item;
use cql_value::{Equals, Row, Value};
use sqlite_items::at;
use std::alloc::{AllocError, Global};
use std::collections::BTreeMap;
use std::collections::btree_map::Iter;

/// The values of these columns of a row go to the end of `values`, in the order of the columns; one
/// that the row lacks is left out.
pub fn choose(
    alloc: Global,
    columns: &[usize],
    row: &[Value],
    values: &mut Vec<Value>,
) -> Result<(), AllocError>
    ensures { OnOk result (values.new.items ≡ values.old.items ++ key_of columns.now row.now) }
{
    values.reserve_exact(columns.len())?;
    for column in columns {
        if let Some(value) = at(row, *column) {
            values.push(value.try_clone(alloc)?)?;
        }
    }
    Ok(())
}

/// A row of what `choose` chooses.
pub fn key(alloc: Global, columns: &[usize], row: &[Value]) -> Result<Row, AllocError>
    ensures { IfOk result (λ k. k ≡ key_of columns.now row.now) }
{
    let mut values = Vec::new(alloc);
    choose(alloc, columns, row, &mut values)?;
    Row::new(alloc, values)
}

// Whether the row has the key in these columns.
fn has_key(columns: &[usize], row: &[Value], key: &[Value]) -> bool
    ensures { IsTrue result → key_of columns.now row.now ≡ key.now }
{
    let mut left = key;
    for column in columns {
        if let Some(value) = at(row, *column) {
            let Some((first, rest)) = left.split_first() else {
                return false;
            };
            if !first.is_equal(value) {
                return false;
            }
            left = rest;
        }
    }
    left.is_empty()
}

// The rows at the front that have the key go to the end of `run`. Gives the first one that has
// another.
fn take_run<'a>(
    alloc: Global,
    columns: &[usize],
    key: &[Value],
    left: &mut Iter<'a, Row, u64>,
    run: &mut Vec<(Row, u64)>,
    meter: &mut Meter,
) -> Result<Option<(&'a Row, &'a u64)>, AllocError>
    requires bag { IsBag left.old }
    requires some { ArePositive run.old.items }
    ensures { IfOk result (λ next. TakesRun (key_of columns.now) key.now left.old run.old.items (entries_from (option_map (λ e. (e.0.now, e.1.now)) next) left.new) run.new.items) }
{
    while let Some((row, times)) = left.next() {
        if !has_key(columns, row.values(), key) {
            return Ok(Some((row, times)));
        }
        run.push((row.try_clone(alloc)?, *times))?;
        meter.step()?;
    }
    Ok(None)
}

// The rows put into the group, each so many times. A row that is less than those that are there is
// found at once, so the last ones go first.
fn put_run(run: Vec<(Row, u64)>, group: &mut Bag) -> Result<(), AllocError>
    requires { ArePositive run.items }
    ensures { OnOk result (group.new ≡ put_all run.items group.old) }
{
    same_counts();
    put_all_counts();
    let _ = group.entries();
    let mut run = run;
    while let Some((row, times)) = run.pop() {
        group.add_times(row, times)?;
    }
    Ok(())
}

// The rows put into the group of the key.
fn put_group(
    alloc: Global,
    key: Row,
    run: Vec<(Row, u64)>,
    groups: &mut BTreeMap<Row, Bag>,
) -> Result<(), AllocError>
    requires { ArePositive run.items }
    ensures { OnOk result (groups.new.entries ≡ insert_entry row_cmp groups.old.entries key (put_all run.items (unwrap_or (lookup (is_at (row_cmp key)) groups.old.entries) []))) }
{
    let group = groups.entry(key)?.or_insert(Bag::new(alloc));
    put_run(run, group)
}

// A run of this row alone.
fn run_of(alloc: Global, row: &Row, times: u64) -> Result<Vec<(Row, u64)>, AllocError>
    ensures { IfOk result (λ run. run.items ≡ (row.now, times) ∷ []) }
{
    let mut run = Vec::new(alloc);
    run.push((row.try_clone(alloc)?, times))?;
    Ok(run)
}

// The row so many times more in the group of its key, and the rows behind it that have this key.
// Gives the first one that has another.
fn put_in_group<'a>(
    alloc: Global,
    columns: &[usize],
    groups: &mut BTreeMap<Row, Bag>,
    row: &'a Row,
    times: u64,
    left: &mut Iter<'a, Row, u64>,
    meter: &mut Meter,
) -> Result<Option<(&'a Row, &'a u64)>, AllocError>
    requires some { 1 ≤ times }
    requires bag { IsBag left.old }
    ensures { IfOk result (λ next. TakesGroup (key_of columns.now) (row.now, times) left.old groups.old.entries (entries_from (option_map (λ e. (e.0.now, e.1.now)) next) left.new) groups.new.entries) }
{
    let key = key(alloc, columns, row.values())?;
    let mut run = run_of(alloc, row, times)?;
    let next = take_run(alloc, columns, key.values(), left, &mut run, meter)?;
    put_group(alloc, key, run, groups)?;
    Ok(next)
}

/// Each key of the rows, and the rows that have it. A key is made and looked up once for rows that
/// follow one another. Each row is a step.
pub fn groups(
    alloc: Global,
    columns: &[usize],
    bag: &Bag,
    meter: &mut Meter,
) -> Result<BTreeMap<Row, Bag>, AllocError>
    ensures { IfOk result (λ m. m.entries ≡ groups_by columns.now bag.now) }
{
    own_entries();
    put_all_counts();
    let mut groups = BTreeMap::new(alloc);
    let mut left = bag.entries();
    let mut next = left.next();
    while let Some((row, times)) = next {
        meter.step()?;
        next = put_in_group(alloc, columns, &mut groups, row, *times, &mut left, meter)?;
    }
    Ok(groups)
}

// Whether the value goes before the other: as the less, or as the greater.
fn goes_first(least: bool, a: &Value, b: &Value) -> bool
    ensures { result ≡ is_first least a.now b.now }
{
    if least {
        a.cmp(b).is_lt()
    } else {
        a.cmp(b).is_gt()
    }
}

// The value of the column that goes first.
fn best_of(bag: &Bag, column: usize, least: bool) -> Option<&Value>
    ensures { option_copied result ≡ best_from least column None bag.now }
{
    let mut best: Option<&Value> = None;
    for (row, _) in bag.entries() {
        if let Some(value) = at(row.values(), column) {
            best = match best {
                None => Some(value),
                Some(old) => {
                    if goes_first(least, value, old) {
                        Some(value)
                    } else {
                        Some(old)
                    }
                }
            };
        }
    }
    best
}

fn clone_of(alloc: Global, value: Option<&Value>) -> Result<Option<Value>, AllocError>
    ensures { IfOk result (λ v. v ≡ option_copied value.entry) }
{
    match value {
        Some(value) => Ok(Some(value.try_clone(alloc)?)),
        None => Ok(None),
    }
}

// The item on the group.
fn item_on_group(alloc: Global, item: &Item, group: &Bag) -> Result<Option<Value>, AllocError>
    ensures { IfOk result (λ v. v ≡ item_over group.now item.now) }
{
    match item {
        Item::Value(expr) => match group.first() {
            Some(row) => evaluate(alloc, expr, row.values()),
            None => Ok(None),
        },
        Item::Count => Ok(Some(Value::Number(group.size() as i64))),
        Item::Sum(column) => Ok(sum_of(group, *column)),
        Item::Min(column) => clone_of(alloc, best_of(group, *column, true)),
        Item::Max(column) => clone_of(alloc, best_of(group, *column, false)),
    }
}

/// The items on the group, unless one is outside i64. Each row is a step for each item.
pub fn row_of_group(
    alloc: Global,
    items: &[Item],
    group: &Bag,
    meter: &mut Meter,
) -> Result<Option<Row>, AllocError>
    ensures { IfOk result (λ r. r ≡ items_over items.now group.now) }
{
    let mut values = Vec::with_capacity(alloc, items.len())?;
    for item in items {
        meter.add(group.size())?;
        match item_on_group(alloc, item, group)? {
            Some(value) => values.push(value)?,
            None => return Ok(None),
        }
    }
    Ok(Some(Row::new(alloc, values)?))
}
