// The rows that a window of parts keeps.
ghost use Rattle.std.specs.Prelude.{◌≡◌, [], length, map, IfOk};
ghost use Rattle.std.specs.Arc.{arc_value};
ghost use Rattle.cql_chunks.specs.Seq.{row_in};
ghost use Rattle.cql_window.specs.Coming.{with_one};

use crate::coming::come_in;
use crate::made::{numbered, sort_by_part};
use crate::parted::parted_by;
use cql_chunks::{Seq, Waste, weight};
use cql_value::Timed;
use cql_window::Count;
use std::alloc::{AllocError, Global};
use std::marker::Model;
use std::slice;
use std::sync::Arc;

// By number, and by part.
const TREES: usize = 2;

/// Rows in order of acceptance, found by their part too. Those after one more row are made beside
/// them, and share all but some that are as many as the logarithm of the rows.
pub struct KeptParts {
    columns: Arc<Vec<usize>>,
    // By number, and by part and number.
    rows: Arc<Seq>,
    parts: Arc<Seq>,
    leaf: Arc<Seq>,
    // The number of the next row.
    next: u64,
    // The units of the rows that came since all were shared.
    made: usize,
}

impl Drop for KeptParts {
    fn drop(self) {
        let KeptParts {
            columns: _,
            rows: _,
            parts: _,
            leaf: _,
            next: _,
            made: _,
        } = self;
    }
}

impl Model for KeptParts {
    ghost use Rattle.std.specs.Prelude.{List, map, ◌≡◌, []};
    ghost use Rattle.std.specs.Arc.{arc_value};
    ghost use Rattle.cql_value.specs.Element.{Element};
    ghost use Rattle.cql_chunks.specs.Seq.{row_in};
    ghost use Rattle.cql_store.specs.Parts.{AreNumbered, AreParted};

    ghost Value = { List Element };

    ghost view = { λ k. map row_in (arc_value k.rows) };

    ghost invariant = { λ k. AreNumbered k.next (arc_value k.rows) × AreParted (arc_value k.columns).items (arc_value k.rows) (arc_value k.parts) × (arc_value k.leaf ≡ []) };
}

// The units of rows in both trees.
fn units_of(rows: &[Timed]) -> usize {
    let mut units = 0usize;
    for row in rows {
        units = units.saturating_add(weight(row).saturating_mul(TREES));
    }
    units
}

impl KeptParts {
    /// No rows.
    pub fn new(alloc: Global, columns: &[usize]) -> Result<KeptParts, AllocError>
        ensures { IfOk result (λ k. k ≡ []) }
    {
        let columns = Arc::new(alloc, Vec::from_slice(alloc, columns)?)?;
        let leaf = Seq::new(alloc)?;
        let rows = Arc::try_clone(&leaf)?;
        let parts = Arc::try_clone(&leaf)?;
        Ok(KeptParts {
            columns,
            rows,
            parts,
            leaf,
            next: 0,
            made: 0,
        })
    }

    /// These rows: all of them are looked at and put in order by their parts. It costs less than
    /// that each of them comes.
    pub fn of(alloc: Global, columns: &[usize], rows: Vec<Timed>) -> Result<KeptParts, AllocError>
        ensures { IfOk result (λ k. k ≡ rows.items) }
    {
        let own = Arc::new(alloc, Vec::from_slice(alloc, columns)?)?;
        let leaf = Seq::new(alloc)?;
        let made = units_of(rows.as_slice());
        let mut entries = numbered(alloc, rows)?;
        let next = entries.len() as u64;
        let rows = Seq::of(alloc, &leaf, entries.as_slice())?;
        sort_by_part(columns, &mut entries)?;
        let parts = Seq::of(alloc, &leaf, entries.as_slice())?;
        Ok(KeptParts {
            columns: own,
            rows,
            parts,
            leaf,
            next,
            made,
        })
    }

    /// The same rows: none is looked at, and no memory is taken. It fails where no more holders can
    /// be counted.
    pub fn share(&self) -> Result<KeptParts, AllocError>
        ensures { IfOk result (λ k. k ≡ self.now) }
    {
        let columns = Arc::try_clone(&self.columns)?;
        let rows = Arc::try_clone(&self.rows)?;
        let parts = Arc::try_clone(&self.parts)?;
        let leaf = Arc::try_clone(&self.leaf)?;
        Ok(KeptParts {
            columns,
            rows,
            parts,
            leaf,
            next: self.next,
            made: 0,
        })
    }

    /// How many there are.
    pub fn len(&self) -> usize
        ensures { result ≡ length self.now }
    {
        self.rows.len()
    }

    /// The units of the rows that came since all were shared, or of all of them.
    pub fn made(&self) -> usize {
        self.made
    }

    /// The rows in order of acceptance, as a list that others may share.
    pub fn tree(&self) -> &Arc<Seq>
        ensures { map row_in (arc_value result.now) ≡ self.now }
    {
        &self.rows
    }

    /// Lets the rows go, a few at a time.
    pub fn let_go(self, waste: &mut Waste) {
        let KeptParts {
            columns: _,
            rows,
            parts,
            leaf: _,
            next: _,
            made: _,
        } = self;
        waste.put(rows);
        waste.put(parts);
    }

    /// The rows after one more, which takes the place of the oldest of its part where there are
    /// `count` of them. What nobody else shares is used again.
    pub fn come(
        self,
        alloc: Global,
        columns: &[usize],
        count: Count,
        row: &Timed,
    ) -> Result<KeptParts, AllocError>
        ensures { IfOk result (λ k. k ≡ with_one columns.now count self row.now) }
    {
        let KeptParts {
            columns: own,
            rows,
            parts,
            leaf,
            next,
            made,
        } = self;
        let (own, parts) = parted_by(alloc, columns, own, &rows, parts, &leaf)?;
        let Some(after) = next.checked_add(1) else {
            return Err(AllocError);
        };
        let (rows, parts) = come_in(alloc, columns, count, rows, parts, &leaf, next, row)?;
        Ok(KeptParts {
            columns: own,
            rows,
            parts,
            leaf,
            next: after,
            made: made.saturating_add(units_of(slice::from_ref(row))),
        })
    }
}
