// The rows of a tree.
ghost use Rattle.std.specs.Prelude.{◌≡◌, ◌≤◌, ◌<◌, ◌^◌, IfOk, length, map, drop, take, slice_index_or};
ghost use Rattle.std.specs.Arc.{arc_value};
ghost use Rattle.cql_chunks.specs.Seq.{row_in};

use crate::plain::LIMIT;
use crate::run::Run;
use crate::seq::Seq;
use cql_value::Timed;
use std::alloc::AllocError;
use std::marker::Model;
use std::slice;
use std::sync::Arc;

/// The rows of a tree from an index on. The tree is shared.
#[derive(Drop)]
pub(crate) struct TreeRows {
    rows: Arc<Seq>,
    // So many rows at the front are gone.
    gone: usize,
}

impl Model for TreeRows {
    ghost use Rattle.std.specs.Prelude.{◌≤◌, ◌<◌, ◌^◌, List, drop, length, map};
    ghost use Rattle.std.specs.Arc.{arc_value};
    ghost use Rattle.cql_value.specs.Element.{Element};
    ghost use Rattle.cql_chunks.specs.Seq.{row_in};

    ghost Value = { List Element };

    ghost view = { λ t. drop t.gone (map row_in (arc_value t.rows)) };

    ghost invariant = { λ t. (t.gone ≤ length (arc_value t.rows)) × (length (arc_value t.rows) < 2 ^ 63) };
}

impl TreeRows {
    /// All rows of a tree. No list has 2^63 rows: such a tree is refused as for want of memory.
    pub(crate) fn of(rows: Arc<Seq>) -> Result<TreeRows, AllocError>
        ensures { IfOk result (λ t. t ≡ map row_in (arc_value rows)) }
    {
        if rows.len() > LIMIT {
            return Err(AllocError);
        }
        Ok(TreeRows { rows, gone: 0 })
    }

    /// How many rows there are.
    pub(crate) fn len(&self) -> usize
        ensures value { result ≡ length self.now }
        ensures small { result < 2 ^ 63 }
    {
        self.rows.len() - self.gone
    }

    /// So many rows at the front go: none is looked at.
    pub(crate) fn drop_front(&mut self, count: usize)
        requires { count ≤ length self.old }
        ensures { self.new ≡ drop count self.old }
    {
        self.gone += count;
    }

    /// The row at an index, in the time of a logarithm.
    pub(crate) fn get(&self, index: usize) -> &Timed
        requires { index < length self.now }
        ensures { result.now ≡ slice_index_or self.now index result.now }
    {
        match self.rows.get(self.gone + index) {
            Some(entry) => &entry.row,
            None => unreachable!(),
        }
    }

    /// The row at an index, as rows that lie together.
    pub(crate) fn run(&self, index: usize) -> Run<'_>
        requires { index < length self.now }
        ensures rows { result ≡ take 1 (drop index self.now) }
        ensures one { length result ≡ 1 }
    {
        Run::plain(slice::from_ref(self.get(index)))
    }

    /// The same rows with one more holder.
    pub(crate) fn share(&self) -> Result<TreeRows, AllocError>
        ensures { IfOk result (λ t. t ≡ self.now) }
    {
        let rows = Arc::try_clone(&self.rows)?;
        let gone = self.gone;
        Ok(TreeRows { rows, gone })
    }
}
