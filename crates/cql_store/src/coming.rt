// One more row among those kept.
ghost use Rattle.std.specs.Prelude.{◌≡◌, ◌+◌, ℕ, [], map, IfOk};
ghost use Rattle.std.specs.Arc.{arc_value};
ghost use Rattle.cql_chunks.specs.Seq.{row_in};
ghost use Rattle.cql_window.specs.Coming.{stays, with_one};
ghost use Rattle.cql_store.specs.Parts.{AreNumbered, AreParted};

use crate::parted::{before, put};
use cql_chunks::{Numbered, Seq};
use cql_value::{Row, Timed};
use cql_window::Count;
use std::alloc::{AllocError, Global};
use std::sync::Arc;

// The oldest of the row's part goes, where there are `count` of it.
fn go_out(
    alloc: Global,
    columns: &[usize],
    count: Count,
    rows: Arc<Seq>,
    parts: Arc<Seq>,
    row: &Row,
) -> Result<(Arc<Seq>, Arc<Seq>), AllocError>
    requires parted { AreParted columns.now (arc_value rows) (arc_value parts) }
    requires numbered { (next : ℕ) × AreNumbered next (arc_value rows) }
    ensures rows { IfOk result (λ r. map row_in (arc_value r.0) ≡ stays columns.now count (map row_in (arc_value rows)) row.now) }
    ensures numbered { IfOk result (λ r. (next : ℕ) → AreNumbered next (arc_value rows) → AreNumbered next (arc_value r.0)) }
    ensures parted { IfOk result (λ r. AreParted columns.now (arc_value r.0) (arc_value r.1)) }
{
    let first = before(columns, &parts, row, false);
    let behind = before(columns, &parts, row, true);
    if (behind.saturating_sub(first) as u64) < count.get() {
        return Ok((rows, parts));
    }
    match parts.get(first) {
        None => unreachable!(),
        Some(oldest) => {
            let index = rows.below(oldest.number);
            let rows = Seq::remove(rows, alloc, index)?;
            Ok((rows, Seq::remove(parts, alloc, first)?))
        }
    }
}

/// One row more, and the oldest of its part goes where there are `count` of it.
pub(crate) fn come_in(
    alloc: Global,
    columns: &[usize],
    count: Count,
    rows: Arc<Seq>,
    parts: Arc<Seq>,
    leaf: &Arc<Seq>,
    next: u64,
    row: &Timed,
) -> Result<(Arc<Seq>, Arc<Seq>), AllocError>
    requires numbered { AreNumbered next (arc_value rows) }
    requires parted { AreParted columns.now (arc_value rows) (arc_value parts) }
    requires leaf { arc_value leaf.now ≡ [] }
    ensures rows { IfOk result (λ r. map row_in (arc_value r.0) ≡ with_one columns.now count (map row_in (arc_value rows)) row.now) }
    ensures numbered { IfOk result (λ r. AreNumbered (next + 1) (arc_value r.0)) }
    ensures parted { IfOk result (λ r. AreParted columns.now (arc_value r.0) (arc_value r.1)) }
{
    let (rows, parts) = go_out(alloc, columns, count, rows, parts, row.row())?;
    let own = Numbered {
        number: next,
        row: row.try_clone()?,
    };
    let twin = own.share()?;
    let parts = put(alloc, columns, parts, leaf, own)?;
    let end = rows.len();
    let rows = Seq::insert(rows, alloc, leaf, end, twin)?;
    Ok((rows, parts))
}
