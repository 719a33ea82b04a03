// Walks over windows of whole rows, seen through projections.
ghost use Rattle.std.specs.Prelude.{◌≡◌, ◌≤◌, ◌++◌, IfOk, OnOk, IsTrue};
ghost use Rattle.std.specs.List.Sorted.{IsPermutation};
ghost use Rattle.cql_window.specs.Projection.{projected};
ghost use Rattle.cql_window.specs.Span.{rows_of, rows_in, IsWithin};
ghost use Rattle.cql_eval.specs.Projected.{started, projected_content, projected_by, IsMove};

use cql_value::{Row, Timed, slices_equal};
use cql_window::{Moved, Part, Span, Walk, WindowPin, row_at};
use std::alloc::{AllocError, Global};
use std::marker::Model;

/// A walk over a window of whole rows, whose rows are seen through a projection.
pub(crate) struct ProjectedWalk<'a> {
    walk: Walk<'a>,
    projection: &'a [usize],
}

impl<'a> Drop for ProjectedWalk<'a> {
    fn drop(self) {
        let ProjectedWalk {
            walk: _,
            projection: _,
        } = self;
    }
}

impl<'a> Model for ProjectedWalk<'a> {
    ghost use Rattle.cql_window.specs.Through.{narrowed_all};
    ghost use Rattle.cql_eval.specs.Projected.{ProjectedWalkModel};

    ghost Value = { ProjectedWalkModel };

    ghost view = { λ w. record { pin = record { window = w.walk.pin; projection = w.projection.now }; cursor = w.walk.cursor; held = narrowed_all w.projection.now w.walk.held } };
}

impl<'a> ProjectedWalk<'a> {
    /// Goes on to a cursor that isn't below the one that was reached, and gives the whole rows that came
    /// and left on the way. Without memory the walk is before its first row again.
    pub(crate) fn advance(&mut self, alloc: Global, cursor: u64) -> Result<Moved, AllocError>
        requires { self.old.cursor ≤ cursor }
        ensures pin { self.new.pin ≡ self.old.pin }
        ensures cursor { OnOk result (self.new.cursor ≡ cursor) }
        ensures held { OnOk result (self.new.held ≡ projected_content cursor self.old.pin) }
        ensures moved { IfOk result (λ m. IsMove self.old.held m self.new) }
    {
        self.walk.advance(alloc, cursor)
    }

    /// A list's rows, and then the whole ones between two indices of the window's pin.
    pub(crate) fn rows<'b>(&'b self, near: &'b [Timed], span: Span) -> Part<'b>
        requires { IsWithin span (rows_of self.now.pin.window) }
        ensures { result ≡ near.now ++ rows_in span (rows_of self.now.pin.window) }
    {
        self.walk.rows(near, span)
    }

    /// A row as it is seen: where the projection is all of it, it is the row itself with one more holder.
    #[inline(always)]
    pub(crate) fn project(&self, alloc: Global, row: &Row) -> Result<Row, AllocError>
        ensures { IfOk result (λ r. r ≡ projected row.now self.now.pin.projection) }
    {
        row_at(alloc, row, self.projection)
    }

    /// At a cursor, or before the first row. Without parts no row is copied.
    pub(crate) fn at(
        alloc: Global,
        window: &'a WindowPin,
        projection: &'a [usize],
        cursor: Option<u64>,
    ) -> Result<ProjectedWalk<'a>, AllocError>
        ensures { IfOk result (λ r. r ≡ started cursor (record { window = window.now; projection = projection.now })) }
    {
        let mut walk = Walk::new(alloc, window);
        if let Some(cursor) = cursor {
            walk.advance(alloc, cursor)?;
        }
        Ok(ProjectedWalk { walk, projection })
    }

    /// Whether both hold the same rows, in order. It may say no of windows with parts. Takes no
    /// memory.
    pub(crate) fn holds_same(&self, other: &ProjectedWalk<'_>) -> bool
        ensures { IsTrue result → self.now.held ≡ other.now.held }
    {
        slices_equal(self.projection, other.projection) && self.walk.holds_same(&other.walk)
    }

    /// The whole rows that the window holds at the cursor, in some order.
    pub(crate) fn held(&self, alloc: Global) -> Result<Vec<Timed>, AllocError>
        ensures { IfOk result (λ r. IsPermutation (projected_by self.now r.items) self.now.held) }
    {
        self.walk.held(alloc)
    }
}
