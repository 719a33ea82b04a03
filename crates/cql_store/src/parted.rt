// Rows part by part.
ghost use Rattle.std.specs.Prelude.{◌≡◌, ◌≤◌, [], ◌∷◌, ◌++◌, List, IfOk, length};
ghost use Rattle.std.specs.List.{prefix_len};
ghost use Rattle.std.specs.Arc.{arc_value};
ghost use Rattle.cql_chunks.specs.Seq.{IsDown};
ghost use Rattle.cql_chunks.specs.declared.seq.Numbered.{Numbered as Entry};
ghost use Rattle.cql_window.specs.Key.{key_of};
ghost use Rattle.cql_store.specs.Parts.{is_before, AreParted};

use crate::part::{is_ahead, part_cmp};
use cql_chunks::{Numbered, Seq};
use cql_value::Row;
use std::alloc::{AllocError, Global};
use std::sync::Arc;

/// How many rows at the front are of a part before the row's, or of its part too where that is
/// asked for.
pub(crate) fn before(columns: &[usize], parts: &Seq, row: &Row, also: bool) -> usize
    ensures value { IsDown (is_before columns.now (key_of columns.now row.now) also) parts.now → result ≡ prefix_len (is_before columns.now (key_of columns.now row.now) also) parts.now }
    ensures within { result ≤ length parts.now }
{
    match parts.halves() {
        None => 0,
        Some((left, own, right)) => {
            let order = part_cmp(columns, own.row.row(), row);
            if is_ahead(order, also) {
                let here = parts.len() - right.len();
                here + before(columns, right, row, also)
            } else {
                before(columns, left, row, also)
            }
        }
    }
}

/// A row comes behind those of its part.
pub(crate) fn put(
    alloc: Global,
    columns: &[usize],
    parts: Arc<Seq>,
    leaf: &Arc<Seq>,
    entry: Numbered,
) -> Result<Arc<Seq>, AllocError>
    requires { arc_value leaf.now ≡ [] }
    ensures { IfOk result (λ after. (rows : List Entry) → AreParted columns.now rows (arc_value parts) → AreParted columns.now (rows ++ entry ∷ []) (arc_value after)) }
{
    let index = before(columns, &parts, entry.row.row(), true);
    Seq::insert(parts, alloc, leaf, index, entry)
}

// The rows by the parts of these columns.
fn parts_of(
    alloc: Global,
    columns: &[usize],
    rows: &Arc<Seq>,
    leaf: &Arc<Seq>,
) -> Result<Arc<Seq>, AllocError>
    requires { arc_value leaf.now ≡ [] }
    ensures { IfOk result (λ parts. AreParted columns.now (arc_value rows.now) (arc_value parts)) }
{
    let mut parts = Arc::try_clone(leaf)?;
    for index in 0..rows.len() {
        let Some(entry) = rows.get(index) else {
            unreachable!();
        };
        parts = put(alloc, columns, parts, leaf, entry.share()?)?;
    }
    Ok(parts)
}

/// The rows by the parts of these columns: what is at hand, where it is by the same.
pub(crate) fn parted_by(
    alloc: Global,
    columns: &[usize],
    own: Arc<Vec<usize>>,
    rows: &Arc<Seq>,
    parts: Arc<Seq>,
    leaf: &Arc<Seq>,
) -> Result<(Arc<Vec<usize>>, Arc<Seq>), AllocError>
    requires parted { AreParted (arc_value own).items (arc_value rows.now) (arc_value parts) }
    requires leaf { arc_value leaf.now ≡ [] }
    ensures columns { IfOk result (λ r. (arc_value r.0).items ≡ columns.now) }
    ensures parted { IfOk result (λ r. AreParted columns.now (arc_value rows.now) (arc_value r.1)) }
{
    if own.as_slice() == columns {
        return Ok((own, parts));
    }
    let anew = parts_of(alloc, columns, rows, leaf)?;
    Ok((Arc::new(alloc, Vec::from_slice(alloc, columns)?)?, anew))
}
