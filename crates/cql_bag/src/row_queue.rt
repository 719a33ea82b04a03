// A bag whose rows mostly go in the order in which they came.
ghost use Rattle.std.specs.Prelude.{◌≡◌, [], Some, slice_get, IsTrue, IfSome, OnOk};
ghost use Rattle.cql_bag.specs.Bag.{IsBag, less_one, put_rows};
ghost use Rattle.cql_bag.specs.Changes.{changed};

use crate::bag::Bag;
use crate::change::Change;
use cql_value::Row;
use std::alloc::{AllocError, Global};
use std::collections::VecDeque;
use std::marker::Model;

/// A bag of rows, seen as `Bag` is, for rows that mostly go in the order in which they came, as those
/// of a window do. A row that comes waits behind the others, and is shared; the one that came first of
/// those that wait goes without a search. Where another goes, those that wait are put in order, each
/// of them once.
pub struct RowQueue {
    waiting: VecDeque<Row>,
    ordered: Bag,
}

impl Drop for RowQueue {
    fn drop(self) {
        let RowQueue {
            waiting: _,
            ordered: _,
        } = self;
    }
}

impl Model for RowQueue {
    ghost use Rattle.cql_bag.specs.Bag.{Counts, IsBag, put_rows};

    ghost Value = { Counts };

    ghost view = { λ q. put_rows q.waiting.items q.ordered };

    ghost invariant = { λ q. IsBag q.ordered };
}

// Whether it is the row that came first of those that wait.
fn is_first(waiting: &VecDeque<Row>, row: &Row) -> bool
    ensures { IsTrue result → slice_get waiting.now.items 0 ≡ Some row.now }
{
    match waiting.front() {
        Some(first) => first == row,
        None => false,
    }
}

// Puts those that wait in order.
fn put_in_order(waiting: &mut VecDeque<Row>, ordered: &mut Bag) -> Result<(), AllocError>
    requires { IsBag ordered.old }
    ensures empty { OnOk result (waiting.new.items ≡ []) }
    ensures rows { OnOk result (ordered.new ≡ put_rows waiting.old.items ordered.old) }
    ensures bag { IsBag ordered.new }
{
    while let Some(row) = waiting.pop_front() {
        ordered.add(row)?;
    }
    Ok(())
}

// One fewer of the row, if there is one.
fn take_row(waiting: &mut VecDeque<Row>, ordered: &mut Bag, row: &Row) -> Result<(), AllocError>
    requires { IsBag ordered.old }
    ensures bag { IsBag ordered.new }
    ensures rows { OnOk result (put_rows waiting.new.items ordered.new ≡ less_one row.now (put_rows waiting.old.items ordered.old)) }
{
    if is_first(waiting, row) {
        let _ = waiting.pop_front();
        return Ok(());
    }
    if ordered.take(row) {
        return Ok(());
    }
    put_in_order(waiting, ordered)?;
    let _ = ordered.take(row);
    Ok(())
}

impl RowQueue {
    /// The bag without a row.
    pub fn new(alloc: Global) -> RowQueue
        ensures { result ≡ [] }
    {
        RowQueue {
            waiting: VecDeque::new(alloc),
            ordered: Bag::new(alloc),
        }
    }

    /// The bag as it is: none of its rows waits.
    pub fn from_bag(alloc: Global, bag: Bag) -> RowQueue
        ensures { result ≡ bag }
    {
        let _ = bag.entries();
        RowQueue {
            waiting: VecDeque::new(alloc),
            ordered: bag,
        }
    }

    /// The bag after the change; a row that goes and isn't there changes nothing.
    pub fn change(&mut self, alloc: Global, change: &Change) -> Result<(), AllocError>
        ensures { OnOk result (self.new ≡ changed change.now self.old) }
    {
        if change.plus {
            self.waiting.push_back(change.row.try_clone(alloc)?)?;
            Ok(())
        } else {
            take_row(&mut self.waiting, &mut self.ordered, &change.row)
        }
    }

    /// The row that came so many rows after the first of those that wait.
    pub fn waiting(&self, index: usize) -> Option<&Row> {
        self.waiting.get(index)
    }

    /// Puts the rows that wait in order.
    pub fn settle(&mut self) -> Result<(), AllocError>
        ensures { OnOk result (self.new ≡ self.old) }
    {
        put_in_order(&mut self.waiting, &mut self.ordered)
    }

    /// The bag, unless some of its rows wait.
    pub fn as_bag(&self) -> Option<&Bag>
        ensures value { IfSome result (λ b. b.now ≡ self.now) }
        ensures bag { IfSome result (λ b. IsBag b.now) }
    {
        if self.waiting.is_empty() {
            Some(&self.ordered)
        } else {
            None
        }
    }
}
