// How much is let go at once.
ghost use Rattle.std.specs.Prelude.{◌<◌};

use cql_value::{Timed, Value};

// So many bytes of a text are let go in the time of a row.
const BYTES: usize = 1024;

/// How much of what nobody needs may still be let go at once. A row and a node of a tree take one unit
/// of it each, and a text of a row one and one more for each further 1,024 bytes.
#[derive(Drop)]
pub struct Budget {
    pub units: usize,
}

/// The units of a row that nobody else holds.
pub fn weight(row: &Timed) -> usize
    ensures { 0 < result }
{
    let mut units = 0usize;
    for value in row.row().values() {
        if let Value::Text(text) = value {
            units = units.saturating_add(1 + text.len() / BYTES);
        }
    }
    units.saturating_add(1)
}
