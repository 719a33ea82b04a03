// The columns of the joined row, and what a written column means.
ghost use Rattle.std.specs.Prelude.{◌≡◌, IfOk};
ghost use Rattle.cql_plan.specs.Columns as spec;

use crate::error::PlanFault;
use cql_syntax::syntax::QualifiedName;
use cql_value::{Column, ColumnType, Items, Name};
use std::alloc::{AllocError, Global};

/// A column of the joined row: the alias of its input, its name and what it holds.
#[derive(Drop)]
pub(crate) struct Field {
    pub(crate) alias: Name,
    pub(crate) name: Name,
    pub(crate) kind: ColumnType,
}

/// A column that was found: its index in the joined row, counted from 0, and what it holds.
#[derive(Clone, Copy)]
pub(crate) struct FoundColumn {
    pub(crate) column: usize,
    pub(crate) kind: ColumnType,
}

// Whether the alias before the dot, where one is written, is the input's.
fn is_of(qualifier: &Option<Name>, alias: &Name) -> bool
    ensures { result ≡ spec.is_of qualifier.now alias.now }
{
    match qualifier {
        None => true,
        Some(qualifier) => *qualifier == *alias,
    }
}

// Whether a written column may mean this one.
fn may_mean(qualifier: &Option<Name>, name: &Name, field: &Field) -> bool
    ensures { result ≡ spec.may_mean qualifier.now name.now field.now }
{
    *name == field.name && is_of(qualifier, &field.alias)
}

/// The column that a written one means: none is `UnknownColumn`, several are
/// `AmbiguousColumn`. Takes no memory.
#[tactic(auto, unfolding(crate::specs::Columns::column_named))]
pub(crate) fn column_named(
    fields: &[Field],
    qualifier: &Option<Name>,
    name: &Name,
) -> Result<FoundColumn, PlanFault>
    ensures { result ≡ spec.column_named qualifier.now name.now fields.now }
{
    let mut found = None;
    for (column, field) in fields.iter().enumerate() {
        if may_mean(qualifier, name, field) {
            if found.is_some() {
                return Err(PlanFault::AmbiguousColumn);
            }
            found = Some(FoundColumn {
                column,
                kind: field.kind,
            });
        }
    }
    match found {
        None => Err(PlanFault::UnknownColumn),
        Some(found) => Ok(found),
    }
}

/// The column that a written one means. Takes no memory.
pub(crate) fn column_of(fields: &[Field], written: &QualifiedName) -> Result<FoundColumn, PlanFault>
    ensures { result ≡ spec.column_of fields.now written.now }
{
    column_named(fields, &written.qualifier, &written.name)
}

// The column of an input of this alias.
fn field_of(alias: &Name, column: &Column) -> Result<Field, AllocError>
    ensures { IfOk result (λ f. f ≡ spec.field_of alias.now column.now) }
{
    let alias = alias.try_clone()?;
    let name = column.name.try_clone()?;
    Ok(Field {
        alias,
        name,
        kind: column.kind,
    })
}

/// The columns of an input of this alias.
pub(crate) fn fields_of(
    alloc: Global,
    alias: &Name,
    columns: &[Column],
) -> Result<Items<Field>, AllocError>
    ensures { IfOk result (λ f. f ≡ spec.fields_of alias.now columns.now) }
{
    let mut fields = Items::new(alloc);
    for column in columns {
        fields.push(field_of(alias, column)?)?;
    }
    Ok(fields)
}

/// What the columns hold.
pub(crate) fn kinds_of(alloc: Global, fields: &[Field]) -> Result<Items<ColumnType>, AllocError>
    ensures { IfOk result (λ k. k ≡ spec.kinds_of fields.now) }
{
    let mut kinds = Items::new(alloc);
    for field in fields {
        kinds.push(field.kind)?;
    }
    Ok(kinds)
}
