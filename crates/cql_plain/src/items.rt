// The items of a shape without groups.
ghost use Rattle.std.specs.Prelude.{◌≡◌, List, IfOk, IsTrue, OnOk, Some, slice_get};
ghost use Rattle.cql_value.specs.declared.value.Value.{Value as CqlValue};
ghost use Rattle.cql_algebra.specs.Shape.{item_value, items_on};
ghost use Rattle.cql_plain.specs.Made.{AreMade};

use crate::made::{Made, MadeRows};
use cql_algebra::{evaluate, number_of};
use cql_bag::Change;
use cql_plan::{Expr, Item};
use cql_value::{Row, Value};
use std::alloc::{AllocError, Global};

// The item on the row; an aggregate has none.
fn item_on(alloc: Global, item: &Item, row: &[Value]) -> Result<Option<Value>, AllocError>
    ensures { IfOk result (λ v. v ≡ item_value row.now item.now) }
{
    match item {
        Item::Value(expr) => match number_of(expr, row) {
            Some(number) => Ok(Some(Value::Number(number))),
            None => evaluate(alloc, expr, row),
        },
        _ => Ok(None),
    }
}

// Whether the item is the column of that index.
#[tactic(auto, unfolding(cql_plan::specs::Expr::expr_value))]
fn is_column(item: &Item, index: usize) -> bool
    ensures { IsTrue result → (row : List CqlValue) → item_value row item.now ≡ slice_get row index }
{
    match item {
        Item::Value(Expr::Column(column)) => *column == index,
        _ => false,
    }
}

// Whether the items are all columns of the row, each at its index.
fn are_columns(items: &[Item], row: &[Value]) -> bool
    ensures { IsTrue result → items_on items.now row.now ≡ Some row.now }
{
    if items.len() != row.len() {
        return false;
    }
    for (index, item) in items.iter().enumerate() {
        if !is_column(item, index) {
            return false;
        }
    }
    true
}

// The items on the row, unless one is outside i64.
fn computed(alloc: Global, items: &[Item], row: &[Value]) -> Result<Option<Row>, AllocError>
    ensures { IfOk result (λ r. r ≡ items_on items.now row.now) }
{
    let mut values = Vec::with_capacity(alloc, items.len())?;
    for item in items {
        match item_on(alloc, item, row)? {
            Some(value) => values.push(value)?,
            None => return Ok(None),
        }
    }
    Ok(Some(Row::new(alloc, values)?))
}

/// A row, and the items on it, unless one is outside i64.
#[derive(Drop)]
pub(crate) struct Turned {
    pub of: Row,
    pub row: Option<Row>,
}

/// The row of a change, and the items on it, unless one is outside i64: the row itself where they are its
/// columns; else what was made of it when it came, or a new row, which is kept if it comes. One that leaves
/// is that which came, where that is kept: so a row that was made to tell that it leaves needn't be.
pub(crate) fn turn_by(
    alloc: Global,
    items: &[Item],
    change: &Change,
    made: &mut MadeRows,
) -> Result<Turned, AllocError>
    requires { AreMade items.now made.old.rows.items }
    ensures of { IfOk result (λ t. t.of ≡ change.now.row) }
    ensures row { IfOk result (λ t. t.row ≡ items_on items.now change.now.row) }
    ensures made { OnOk result (AreMade items.now made.new.rows.items) }
{
    let of = &change.row;
    if are_columns(items, of.values()) {
        return Ok(Turned {
            of: of.share()?,
            row: Some(of.share()?),
        });
    }
    if !change.plus {
        if let Some(Made { came, row }) = made.take(of) {
            return Ok(Turned {
                of: came,
                row: Some(row),
            });
        }
    }
    let row = computed(alloc, items, of.values())?;
    if let (true, Some(row)) = (change.plus, &row) {
        made.keep(of, row)?;
    }
    Ok(Turned {
        of: of.share()?,
        row,
    })
}
