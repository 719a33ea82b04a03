// A shape without groups: what its items make of each row.
ghost use Rattle.std.specs.Prelude.{◌≡◌, ◌+◌, [], IfOk, IfErr, OnErr, OnOk};
ghost use Rattle.cql_value.specs.Schema.{HasTypes};
ghost use Rattle.cql_bag.specs.Changes.{CanChange, Grows};
ghost use Rattle.cql_plan.specs.declared.node.Shape.{Shape as CqlShape};
ghost use Rattle.cql_algebra.specs.Shape.{items_on, shape_value};
ghost use Rattle.cql_algebra.specs.Value.{or_overflow};
ghost use Rattle.cql_ops.specs.Clauses.{fault_in};
ghost use Rattle.cql_plain.specs.Logs.{logged, logged_bag, told_all, told_image};
ghost use Rattle.cql_plain.specs.Shaped.{KeepsRows, TellsShape, FailsToShape};

use crate::items::{Turned, turn_by};
use crate::log::{Log, adds_law, tells_law};
use crate::made::MadeRows;
use cql_algebra::law::item_types_law;
use cql_bag::Change;
use cql_bag::law::{put_all_counts, same_counts, take_counts};
use cql_ops::OpError;
use cql_plan::{Fault, Shape};
use std::alloc::{AllocError, Global};

/// The changes of the port, what the items make of those that are not told, and on how many of the
/// port's rows some item has no value; beside them what the items made of rows that came.
pub(crate) struct Projected {
    pub log: Log,
    pub untold: Vec<Change>,
    pub lacking: u64,
    pub made: MadeRows,
}

impl Drop for Projected {
    fn drop(self) {
        let Projected {
            log: _,
            untold: _,
            lacking: _,
            made: _,
        } = self;
    }
}

fn one_more(count: u64) -> Result<u64, AllocError>
    ensures { IfOk result (λ n. n ≡ count + 1) }
{
    count.checked_add(1).ok_or(AllocError)
}

impl Projected {
    /// Without a row.
    pub fn new(alloc: Global) -> Projected
        ensures log { result.log ≡ record { told = []; untold = [] } }
        ensures untold { result.untold.items ≡ [] }
        ensures lacking { result.lacking ≡ 0 }
        ensures made { result.made.rows.items ≡ [] }
    {
        Projected {
            log: Log::new(alloc),
            untold: Vec::new(alloc),
            lacking: 0,
            made: MadeRows::new(alloc),
        }
    }

    /// A change of the port. What the items make of its row is kept until it is told.
    pub fn push(&mut self, alloc: Global, shape: &Shape, change: &Change) -> Result<(), AllocError>
        requires keeps { KeepsRows shape.now self.old }
        requires types { HasTypes shape.now.columns change.now.row }
        requires there { CanChange change.now (logged_bag self.old.log) }
        ensures log { OnOk result (self.new.log ≡ logged change.now self.old.log) }
        ensures keeps { OnOk result (KeepsRows shape.now self.new) }
    {
        adds_law();
        let plus = change.plus;
        let Turned { of, row } = turn_by(alloc, shape.items.as_slice(), change, &mut self.made)?;
        match row {
            Some(row) => self.untold.push(Change { plus, row })?,
            None if plus => self.lacking = one_more(self.lacking)?,
            None => self.lacking -= 1,
        }
        self.log.push(alloc, Change { plus, row: of })
    }

    /// `Overflow` where an item is outside i64 on some row of the port; else none.
    pub fn fault(&self) -> Option<Fault>
        ensures { (shape : CqlShape) → KeepsRows shape self.now → result ≡ fault_in (or_overflow (shape_value shape (logged_bag self.now.log))) }
    {
        same_counts();
        put_all_counts();
        take_counts();
        if self.lacking > 0 {
            Some(Fault::Overflow)
        } else {
            None
        }
    }

    /// Tells what the items made of the changes since it last told any, or `Overflow` where an item
    /// is outside i64 on some row of the port.
    pub fn tell(
        &mut self,
        alloc: Global,
        shape: &Shape,
        out: &mut Vec<Change>,
    ) -> Result<(), OpError>
        requires { KeepsRows shape.now self.old }
        ensures told { OnOk result (TellsShape shape.now (logged_bag self.old.log) (told_image (items_on shape.now.items) self.old.log) (told_image (items_on shape.now.items) self.new.log) out.old.items out.new.items) }
        ensures log { OnOk result (self.new.log ≡ told_all self.old.log) }
        ensures keeps { OnOk result (KeepsRows shape.now self.new) }
        ensures kept { OnErr result (Grows out.old.items out.new.items) }
        ensures err { IfErr result (FailsToShape shape.now (logged_bag self.old.log)) }
    {
        item_types_law();
        tells_law();
        same_counts();
        put_all_counts();
        take_counts();
        if self.lacking > 0 {
            return Err(OpError::Overflow);
        }
        out.append(&mut self.untold)?;
        self.log.pass(alloc);
        Ok(())
    }
}
