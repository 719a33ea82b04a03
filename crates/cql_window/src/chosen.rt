// The columns of a stream that a grant shows.
ghost use Rattle.std.specs.Prelude.{◌≡◌, true, IfOk, Some, is_some, map, unwrap_or, option_copied};
ghost use Rattle.std.specs.List.{list_all, list_any};
ghost use Rattle.std.specs.Str.{bytes_eq};
ghost use Rattle.cql_value.specs.Schema.{is_schema};
ghost use Rattle.cql_window.specs.Projection.{projected};
ghost use Rattle.cql_window.specs.Chosen.{column_index, are_unlike, is_shown, shown_projection};

use crate::copies::copies_at;
use crate::projection::whole_projection;
use cql_value::{Column, Items, Schema, Text};
use sqlite_items::at;
use std::alloc::{AllocError, Global};

fn column_index(columns: &[Column], name: &Text) -> Option<usize>
    ensures { result ≡ column_index columns.now name.now }
{
    columns
        .iter()
        .position(|column| column.name.as_str() == name.as_str())
}

// Whether the name is among the others.
fn is_among(name: &Text, others: &[Text]) -> bool
    ensures { result ≡ list_any (λ other. bytes_eq name.now other) others.now }
{
    others.iter().any(|other| name.as_str() == other.as_str())
}

// Whether no two are one.
fn are_unlike(names: &[Text]) -> bool
    ensures { result ≡ are_unlike names.now }
{
    let mut rest = names;
    while let Some((first, later)) = rest.split_first() {
        if is_among(first, later) {
            return false;
        }
        rest = later;
    }
    true
}

// Whether each name is a column's.
fn are_known(columns: &[Column], names: &[Text]) -> bool
    ensures { result ≡ list_all (λ name. is_some (column_index columns.now name)) names.now }
{
    names
        .iter()
        .all(|name| column_index(columns, name).is_some())
}

fn is_choice(columns: &[Column], names: &[Text]) -> bool
    ensures { result ≡ is_shown columns.now (Some names.now) }
{
    1 <= names.len() && names.len() <= 16 && are_known(columns, names) && are_unlike(names)
}

/// Whether a grant may show the columns of these names, or all where none are named. Takes no
/// memory.
pub fn is_shown(schema: &Schema, names: Option<&Items<Text>>) -> bool
    ensures { result ≡ is_shown schema.now (option_copied names.entry) }
{
    match names {
        None => true,
        Some(names) => is_choice(schema.columns(), names.as_slice()),
    }
}

// The indices of the columns of these names.
fn named_projection(
    alloc: Global,
    columns: &[Column],
    names: &[Text],
) -> Result<Items<usize>, AllocError>
    ensures { IfOk result (λ projection. projection ≡ map (λ name. unwrap_or (column_index columns.now name) 0) names.now) }
{
    let mut projection = Items::new(alloc);
    for name in names {
        projection.push(column_index(columns, name).unwrap_or(0))?;
    }
    Ok(projection)
}

/// The indices of the columns that a grant shows.
pub fn shown_projection(
    alloc: Global,
    schema: &Schema,
    names: Option<&Items<Text>>,
) -> Result<Items<usize>, AllocError>
    ensures { IfOk result (λ projection. projection ≡ shown_projection schema.now (option_copied names.entry)) }
{
    match names {
        None => Items::from_slice(alloc, whole_projection(schema)),
        Some(names) => named_projection(alloc, schema.columns(), names.as_slice()),
    }
}

/// The schema of the projection's columns.
pub fn schema_at(alloc: Global, schema: &Schema, projection: &[usize]) -> Result<Schema, AllocError>
    requires { is_schema (projected schema.now projection.now) ≡ true }
    ensures { IfOk result (λ shown. shown ≡ projected schema.now projection.now) }
{
    let columns = copies_at(alloc, schema.columns(), projection)?;
    let shown = Schema::new(columns);
    Ok(shown.unwrap())
}
