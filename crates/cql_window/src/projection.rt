// The projection that takes all columns of a row.
ghost use Rattle.std.specs.Prelude.{◌≡◌, ◌≤◌, ◌↔◌, IsTrue, length};
ghost use Rattle.cql_window.specs.Projection.{whole_projection};

use cql_value::Schema;

/// The indices of as many columns as a schema may have.
const COLUMNS: &[usize] = &[0, 1, 2, 3, 4, 5, 6, 7, 8, 9, 10, 11, 12, 13, 14, 15];

/// The indices of all columns of a schema, in order.
pub fn whole_projection(schema: &Schema) -> &'static [usize]
    ensures { result.now ≡ whole_projection (length schema.now) }
{
    &COLUMNS[..schema.columns().len()]
}

/// Whether the projection takes all of so many columns, in order, and these are no more than a schema
/// may have.
pub fn takes_all(projection: &[usize], many: usize) -> bool
    ensures { IsTrue result ↔ ((many ≤ 16) × (projection.now ≡ whole_projection many)) }
{
    many <= COLUMNS.len() && projection == &COLUMNS[..many]
}
