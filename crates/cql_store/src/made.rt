// Both lists at once, of rows at hand.
ghost use Rattle.std.specs.Prelude.{◌≡◌, map, length, IfOk, OnOk};
ghost use Rattle.cql_chunks.specs.Seq.{row_in};
ghost use Rattle.cql_store.specs.Parts.{AreNumbered, AreParted};

use crate::part::part_cmp;
use cql_chunks::Numbered;
use cql_value::Timed;
use std::alloc::{AllocError, Global};

/// The rows with their numbers.
pub(crate) fn numbered(alloc: Global, rows: Vec<Timed>) -> Result<Vec<Numbered>, AllocError>
    ensures rows { IfOk result (λ v. map row_in v.items ≡ rows.items) }
    ensures numbers { IfOk result (λ v. AreNumbered (length v.items) v.items) }
{
    let mut entries = Vec::with_capacity(alloc, rows.len())?;
    for row in rows {
        let number = entries.len() as u64;
        entries.push(Numbered { number, row })?;
    }
    Ok(entries)
}

/// Part by part, those of each in the order in which they were.
pub(crate) fn sort_by_part(columns: &[usize], entries: &mut Vec<Numbered>) -> Result<(), AllocError>
    ensures { OnOk result (AreParted columns.now entries.old.items entries.new.items) }
{
    entries.sort_by(|a, b| part_cmp(columns, a.row.row(), b.row.row()))
}
