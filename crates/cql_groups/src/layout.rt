// What the items of a shape ask of columns, each once, and where each item finds its value.
ghost use Rattle.std.specs.Prelude.{◌≡◌, Some, slice_get, IfOk, IfSome};
ghost use Rattle.std.specs.List.{AllByRecursion};
ghost use Rattle.cql_groups.specs.Keyed.{IsKeyed};
ghost use Rattle.cql_groups.specs.Layouts.{column_in, asks, IsOther, IsGrownBy, IsSourceOf, IsLayout};

use crate::accumulator::AccumulatorKind;
use cql_plain::copy_of_shape;
use cql_plan::{Expr, Item, Shape};
use cql_value::Items;
use std::alloc::{AllocError, Global};

/// Where the value of an item is found: in a column of the group's rows, in how many there are, or
/// in the part at an index.
#[derive(Clone, Copy)]
pub(crate) enum ItemSource {
    Column(usize),
    Count,
    Sum(usize),
    Least(usize),
    Greatest(usize),
}

/// A shape, what its items ask of columns, and the source of each item.
pub(crate) struct Layout {
    pub shape: Shape,
    pub asked: Items<AccumulatorKind>,
    pub sources: Items<ItemSource>,
}

impl Drop for Layout {
    fn drop(self) {
        let Layout {
            shape: _,
            asked: _,
            sources: _,
        } = self;
    }
}

// The index of a column.
#[tactic(auto, unfolding(crate::specs::Layouts::column_in))]
fn column_in(expr: &Expr) -> usize
    ensures { result ≡ column_in expr.now }
{
    match expr {
        Expr::Column(column) => *column,
        _ => 0,
    }
}

// Where it stands.
fn found(asked: &[AccumulatorKind], one: AccumulatorKind) -> Option<usize>
    ensures index { IfSome result (λ at. slice_get asked.now at ≡ Some one) }
    ensures none { result ≡ None → AllByRecursion (IsOther one) asked.now }
{
    for i in 0..asked.len() {
        if asked[i] == one {
            return Some(i);
        }
    }
    None
}

// Where it stands, put at the end if it isn't there.
fn index_of(one: AccumulatorKind, asked: &mut Vec<AccumulatorKind>) -> Result<usize, AllocError>
    ensures { IfOk result (λ at. (slice_get asked.new.items at ≡ Some one) × IsGrownBy (Some one) asked.old.items asked.new.items) }
{
    if let Some(index) = found(asked.as_slice(), one) {
        return Ok(index);
    }
    let index = asked.len();
    asked.push(one)?;
    Ok(index)
}

// Where the item finds its value; what it asks is put at the end if it isn't there.
fn source_of(item: &Item, asked: &mut Vec<AccumulatorKind>) -> Result<ItemSource, AllocError>
    ensures { IfOk result (λ source. IsSourceOf asked.new.items item.now source × IsGrownBy (asks item.now) asked.old.items asked.new.items) }
{
    match item {
        Item::Value(expr) => Ok(ItemSource::Column(column_in(expr))),
        Item::Count => Ok(ItemSource::Count),
        Item::Sum(column) => Ok(ItemSource::Sum(index_of(AccumulatorKind::Sum(*column), asked)?)),
        Item::Min(column) => Ok(ItemSource::Least(index_of(
            AccumulatorKind::Values(*column),
            asked,
        )?)),
        Item::Max(column) => Ok(ItemSource::Greatest(index_of(
            AccumulatorKind::Values(*column),
            asked,
        )?)),
    }
}

impl Layout {
    /// Of a shape. What several items ask stands there once.
    pub fn new(alloc: Global, shape: &Shape) -> Result<Layout, AllocError>
        requires { IsKeyed shape.now }
        ensures { IfOk result (λ l. (l.shape ≡ shape.now) × IsLayout l) }
    {
        let mut asked = Vec::new(alloc);
        let mut sources = Vec::new(alloc);
        for item in shape.items.as_slice() {
            let source = source_of(item, &mut asked)?;
            sources.push(source)?;
        }
        let copy = copy_of_shape(alloc, shape)?;
        Ok(Layout {
            shape: copy,
            asked: Items::from_vec(asked),
            sources: Items::from_vec(sources),
        })
    }
}
