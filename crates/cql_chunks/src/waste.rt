// Rows that nobody asks for any more.
ghost use Rattle.std.specs.Prelude.{◌≡◌, ◌<◌, ◌≤◌, ◌+◌, IsTrue, None, length};
ghost use Rattle.std.specs.Arc.{arc_value};
ghost use Rattle.cql_chunks.specs.Waiting.{waiting};

use crate::budget::{Budget, weight};
use crate::seq::Seq;
use cql_value::Timed;
use std::alloc::Global;
use std::sync::Arc;

/// Rows and lists that nobody asks for any more, taken apart a few rows at a time. What another still
/// holds of them stays as it is.
pub struct Waste {
    trees: Vec<Arc<Seq>>,
    // Those of a chunk that are left.
    pub(crate) rows: Option<Vec<Timed>>,
}

impl Drop for Waste {
    fn drop(self) {
        let Waste { trees: _, rows: _ } = self;
    }
}

impl Waste {
    /// Nothing yet.
    pub fn new(alloc: Global) -> Waste
        ensures { waiting result ≡ 0 }
    {
        Waste {
            trees: Vec::new(alloc),
            rows: None,
        }
    }

    /// Whether nothing is left to take apart.
    pub fn is_empty(&self) -> bool
        ensures { IsTrue result → waiting self.now ≡ 0 }
    {
        self.trees.is_empty() && self.rows.is_none()
    }

    /// The list will be taken apart later, if it has a row. Without memory to note it down, this
    /// happens at once.
    pub fn put(&mut self, tree: Arc<Seq>)
        ensures more { waiting self.new ≤ waiting self.old + length (arc_value tree) }
        ensures rows { self.new.rows ≡ self.old.rows }
    {
        if tree.len() > 0 {
            drop(self.trees.push(tree));
        }
    }

    /// Takes as much apart as the budget has units for: it stops where none is left, or nothing waits.
    pub fn settle(&mut self, budget: &mut Budget)
        ensures fewer { waiting self.new ≤ waiting self.old }
        ensures all { 0 < budget.new.units → waiting self.new ≡ 0 }
    {
        self.settle_rows(budget);
        for _ in 0..budget.units {
            if budget.units == 0 {
                return;
            }
            let Some(tree) = self.trees.pop() else {
                return;
            };
            let units = self.take_apart(tree);
            budget.units = budget.units.saturating_sub(units);
        }
    }

    // Lets go of the rows of a chunk, as far as the budget has units.
    pub(crate) fn settle_rows(&mut self, budget: &mut Budget)
        ensures fewer { waiting self.new ≤ waiting self.old }
        ensures all { 0 < budget.new.units → self.new.rows ≡ None }
    {
        let Some(rows) = &mut self.rows else {
            return;
        };
        for _ in 0..rows.len() {
            if budget.units == 0 {
                return;
            }
            if let Some(row) = rows.pop() {
                budget.units = budget.units.saturating_sub(weight(&row));
            }
        }
        self.rows = None;
    }

    // Takes a tree apart in its midst, and tells its units. Another that holds it goes on with it.
    fn take_apart(&mut self, tree: Arc<Seq>) -> usize
        ensures more { waiting self.new ≤ waiting self.old + length (arc_value tree) }
        ensures rows { self.new.rows ≡ self.old.rows }
        ensures some { 0 < result }
    {
        let Some(seq) = Arc::into_inner(tree) else {
            return 1;
        };
        let Some((left, entry, right)) = seq.into_halves() else {
            return 1;
        };
        self.put(left);
        self.put(right);
        weight(&entry.row)
    }
}
