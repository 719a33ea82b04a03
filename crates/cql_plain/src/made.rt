// Rows that items made of rows of a port, kept for when these leave.
ghost use Rattle.std.specs.Prelude.{◌≡◌, List, [], Some, IfSome, OnOk};
ghost use Rattle.cql_plan.specs.declared.node.Item.{Item};
ghost use Rattle.cql_algebra.specs.Shape.{items_on};
ghost use Rattle.cql_plain.specs.Made.{AreMade};

use cql_value::{Equals, Row};
use std::alloc::{AllocError, Global};
use std::collections::VecDeque;

// So many rows leave in another order than they came in before none is kept any more: where they come to two
// sides of a join, hardly one leaves in order.
const MOST_MISSES: u64 = 64;

/// A row that came, and what the items made of it.
#[derive(Drop)]
pub(crate) struct Made {
    pub came: Row,
    pub row: Row,
}

/// Rows in the order in which they came, with what the items made of them; no more once too many left in
/// another order.
pub(crate) struct MadeRows {
    pub rows: VecDeque<Made>,
    // How many more than those that left in order did not, each of which counts twice.
    misses: u64,
}

impl Drop for MadeRows {
    fn drop(self) {
        let MadeRows { rows: _, misses: _ } = self;
    }
}

impl MadeRows {
    /// None.
    pub fn new(alloc: Global) -> MadeRows
        ensures { result.rows.items ≡ [] }
    {
        MadeRows {
            rows: VecDeque::new(alloc),
            misses: 0,
        }
    }

    /// Keeps what the items made of a row that came, unless too many left in another order than they came
    /// in. Both are shared.
    pub fn keep(&mut self, came: &Row, row: &Row) -> Result<(), AllocError>
        ensures { OnOk result ((items : List Item) → AreMade items self.old.rows.items → items_on items came.now ≡ Some row.now → AreMade items self.new.rows.items) }
    {
        if self.misses > MOST_MISSES {
            return Ok(());
        }
        let came = came.share()?;
        let row = row.share()?;
        self.rows.push_back(Made { came, row })?;
        Ok(())
    }

    /// A row that leaves as it came, with what the items made of it, where none of those that are kept
    /// came before it. The first of these is let go. Takes no memory.
    pub fn take(&mut self, leaves: &Row) -> Option<Made>
        ensures came { IfSome result (λ m. m.came ≡ leaves.now) }
        ensures row { IfSome result (λ m. (items : List Item) → AreMade items self.old.rows.items → items_on items leaves.now ≡ Some m.row) }
        ensures rest { (items : List Item) → AreMade items self.old.rows.items → AreMade items self.new.rows.items }
    {
        let first = self.rows.pop_front()?;
        if first.came.is_equal(leaves) {
            self.misses = self.misses.saturating_sub(1);
            Some(first)
        } else {
            self.misses = self.misses.saturating_add(2);
            None
        }
    }
}
