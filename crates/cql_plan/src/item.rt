// Items with their types.
ghost use Rattle.std.specs.Prelude.{◌≡◌, ◌==◌, IfOk};
ghost use Rattle.std.specs.List.{list_any};
ghost use Rattle.cql_plan.specs.Outcome.{Answers, AnswersList, each};
ghost use Rattle.cql_plan.specs.Typing as spec;

use crate::error::{PlanError, PlanFault};
use crate::expr::Expr;
use crate::node::Item;
use crate::row::{Field, FoundColumn, column_of};
use crate::typed::{expression_of, same_kind};
use cql_syntax::syntax::{
    self, Aggregate, Expression, Function, QualifiedName, SelectBlock, Selection, Shown,
};
use cql_value::{ColumnType, Items};
use std::alloc::{AllocError, Global};

/// An item and what it gives.
#[derive(Drop)]
pub(crate) struct TypedItem {
    pub(crate) item: Item,
    pub(crate) kind: ColumnType,
}

// A column by which a block is grouped.
fn group_of(fields: &[Field], written: &QualifiedName) -> Result<usize, PlanFault>
    ensures { result ≡ spec.group_of fields.now written.now }
{
    let found = column_of(fields, written)?;
    Ok(found.column)
}

/// The columns by which a block is grouped, from the left.
#[tactic(auto, using(crate::proofs::Each::stops, crate::proofs::Each::goes_on, crate::proofs::Each::ends))]
pub(crate) fn groups_of(
    alloc: Global,
    fields: &[Field],
    written: &[QualifiedName],
) -> Result<Items<usize>, PlanError>
    ensures { Answers (each (spec.group_of fields.now) written.now) result }
{
    let mut groups = Items::new(alloc);
    for column in written {
        groups.push(group_of(fields, column)?)?;
    }
    Ok(groups)
}

fn has_column(groups: &[usize], column: usize) -> bool
    ensures { result ≡ list_any (λ group. group == column) groups.now }
{
    groups.iter().any(|group| *group == column)
}

// Whether it is one of these columns.
#[tactic(auto, unfolding(crate::specs::Typing::is_among))]
fn is_among(groups: &[usize], expr: &Expr) -> bool
    ensures { result ≡ spec.is_among groups.now expr.now }
{
    match expr {
        Expr::Column(column) => has_column(groups, *column),
        _ => false,
    }
}

// Whether it is a column without brackets.
#[tactic(auto, unfolding(crate::specs::Typing::is_column))]
fn is_column(written: &Expression) -> bool
    ensures { result ≡ spec.is_column written.now }
{
    match written {
        Expression::Column(_) => true,
        _ => false,
    }
}

fn is_grouped_by(groups: &[usize], written: &Expression, expr: &Expr) -> bool
    ensures { result ≡ spec.is_grouped_by groups.now written.now expr.now }
{
    is_column(written) && is_among(groups, expr)
}

// SUM takes a number, MIN and MAX take either type.
fn function_of(function: Function, found: FoundColumn) -> Result<TypedItem, PlanFault>
    ensures { result ≡ spec.function_of function found }
{
    match function {
        Function::Sum => {
            if !same_kind(found.kind, ColumnType::Number) {
                return Err(PlanFault::TypeMismatch);
            }
            Ok(TypedItem {
                item: Item::Sum(found.column),
                kind: ColumnType::Number,
            })
        }
        Function::Min => Ok(TypedItem {
            item: Item::Min(found.column),
            kind: found.kind,
        }),
        Function::Max => Ok(TypedItem {
            item: Item::Max(found.column),
            kind: found.kind,
        }),
    }
}

#[tactic(auto, unfolding(crate::specs::Typing::aggregate_of))]
fn aggregate_of(fields: &[Field], written: &Aggregate) -> Result<TypedItem, PlanFault>
    ensures { result ≡ spec.aggregate_of fields.now written.now }
{
    match written {
        Aggregate::Count => Ok(TypedItem {
            item: Item::Count,
            kind: ColumnType::Number,
        }),
        Aggregate::Over(function, column) => {
            let found = column_of(fields, column)?;
            function_of(*function, found)
        }
    }
}

// An item: the faults inside it, then whether a grouped block allows it.
#[tactic(auto, unfolding(crate::specs::Typing::shown_of))]
fn shown_of(
    alloc: Global,
    fields: &[Field],
    grouped: bool,
    groups: &[usize],
    written: &Shown,
) -> Result<TypedItem, PlanError>
    ensures { Answers (spec.shown_of fields.now grouped groups.now written.now) result }
{
    match written {
        Shown::Aggregate(aggregate) => Ok(aggregate_of(fields, aggregate)?),
        Shown::Expression(written) => {
            let typed = expression_of(alloc, fields, written)?;
            if grouped && !is_grouped_by(groups, written, &typed.expr) {
                return Err(PlanError::Refused(PlanFault::TypeMismatch));
            }
            Ok(TypedItem {
                item: Item::Value(typed.expr),
                kind: typed.kind,
            })
        }
    }
}

#[tactic(auto, using(crate::proofs::Each::stops, crate::proofs::Each::goes_on, crate::proofs::Each::ends))]
fn listed_items(
    alloc: Global,
    fields: &[Field],
    grouped: bool,
    groups: &[usize],
    written: &[syntax::Item],
) -> Result<Vec<TypedItem>, PlanError>
    ensures { AnswersList (each (spec.item_of fields.now grouped groups.now) written.now) result }
{
    let mut items = Vec::new(alloc);
    for item in written {
        items.push(shown_of(alloc, fields, grouped, groups, &item.shown)?)?;
    }
    Ok(items)
}

// All columns.
#[tactic(auto, unfolding(crate::specs::Typing::all_items))]
fn all_items(alloc: Global, fields: &[Field]) -> Result<Vec<TypedItem>, AllocError>
    ensures { IfOk result (λ items. items.items ≡ spec.all_items 0 fields.now) }
{
    let mut items = Vec::new(alloc);
    for (column, field) in fields.iter().enumerate() {
        items.push(TypedItem {
            item: Item::Value(Expr::Column(column)),
            kind: field.kind,
        })?;
    }
    Ok(items)
}

/// The items of a block, from the left; `*` is all columns, and not allowed in a grouped block.
#[tactic(auto, unfolding(crate::specs::Typing::items_of))]
pub(crate) fn items_of(
    alloc: Global,
    fields: &[Field],
    grouped: bool,
    groups: &[usize],
    written: &Selection,
) -> Result<Vec<TypedItem>, PlanError>
    ensures { AnswersList (spec.items_of fields.now grouped groups.now written.now) result }
{
    match written {
        Selection::All => {
            if grouped {
                return Err(PlanError::Refused(PlanFault::TypeMismatch));
            }
            Ok(all_items(alloc, fields)?)
        }
        Selection::List(items) => listed_items(alloc, fields, grouped, groups, items.as_slice()),
    }
}

fn is_aggregate(item: &syntax::Item) -> bool
    ensures { result ≡ spec.is_aggregate item.now }
{
    match &item.shown {
        Shown::Aggregate(_) => true,
        Shown::Expression(_) => false,
    }
}

fn are_any_aggregates(items: &[syntax::Item]) -> bool
    ensures { result ≡ list_any spec.is_aggregate items.now }
{
    items.iter().any(is_aggregate)
}

fn has_aggregate(written: &Selection) -> bool
    ensures { result ≡ spec.has_aggregate written.now }
{
    match written {
        Selection::All => false,
        Selection::List(items) => are_any_aggregates(items.as_slice()),
    }
}

/// Whether a block has GROUP BY or an aggregate.
#[tactic(auto, unfolding(crate::specs::Typing::is_grouped))]
pub(crate) fn is_grouped(block: &SelectBlock) -> bool
    ensures { result ≡ spec.is_grouped block.now }
{
    !block.groups.is_empty() || has_aggregate(&block.selection)
}
