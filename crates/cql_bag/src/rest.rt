// What bags, or lists of rows that ascend, have more of than others.
ghost use Rattle.std.specs.Prelude.{◌≡◌, false, IfOk};
ghost use Rattle.std.specs.List.Sorted.{IsSorted};
ghost use Rattle.cql_value.specs.Order.{row_cmp};
ghost use Rattle.cql_bag.specs.Bag.{bag_of, listing, minus};
ghost use Rattle.cql_bag.specs.Rest.{strike, rest_rows};

use crate::Bag;
use crate::bag::list_times;
use crate::change::count_on;
use cql_value::{Items, Row};
use std::alloc::{AllocError, Global};
use std::cmp::Ordering;

// What is left of rows that ascend behind those below the row and one that is it, and whether there
// is one.
#[inline(always)]
fn strike<'a>(others: &'a [Row], row: &Row) -> (&'a [Row], bool)
    ensures rest { result.0.now ≡ (strike row.now others.now).0 }
    ensures found { result.1 ≡ (strike row.now others.now).1 }
{
    let mut left = others;
    while let Some((first, later)) = left.split_first() {
        match first.cmp(row) {
            Ordering::Less => left = later,
            Ordering::Equal => return (later, true),
            Ordering::Greater => return (left, false),
        }
    }
    (left, false)
}

/// The rows of the first list without those of the second, each of which strikes one off. Both
/// ascend, and are walked over once.
pub fn rest_of(alloc: Global, rows: &[Row], others: &[Row]) -> Result<Items<Row>, AllocError>
    requires first { IsSorted row_cmp rows.now }
    requires second { IsSorted row_cmp others.now }
    ensures { IfOk result (λ rest. rest ≡ listing (minus (bag_of rows.now) (bag_of others.now))) }
{
    let mut rest = Vec::with_capacity(alloc, rows.len())?;
    let mut left = others;
    for row in rows {
        let (later, struck) = strike(left, row);
        left = later;
        if !struck {
            rest.push(row.try_clone(alloc)?)?;
        }
    }
    rest.shrink_to_fit();
    Ok(Items::from_vec(rest))
}

// Whether a row of the first list is struck off.
fn strikes_any(rows: &[Row], others: &[Row]) -> bool
    ensures { result ≡ false → rest_rows rows.now others.now ≡ rows.now }
{
    let mut left = others;
    for row in rows {
        let (later, struck) = strike(left, row);
        if struck {
            return true;
        }
        left = later;
    }
    false
}

/// As `rest_of`, of rows that are handed over: where none is struck off they come back as they are,
/// and no memory is taken.
pub fn rest_from(alloc: Global, rows: Vec<Row>, others: &[Row]) -> Result<Items<Row>, AllocError>
    requires first { IsSorted row_cmp rows.items }
    requires second { IsSorted row_cmp others.now }
    ensures { IfOk result (λ rest. rest ≡ listing (minus (bag_of rows.items) (bag_of others.now))) }
{
    if strikes_any(&rows, others) {
        rest_of(alloc, &rows, others)
    } else {
        Ok(Items::from_vec(rows))
    }
}

impl Bag {
    /// The rows that it has more often than the other bag, ascending, each as often as it has it
    /// more often: the listing of what `minus` gives, in one walk over both and with no bag made.
    pub fn excess(&self, alloc: Global, over: &Bag) -> Result<Items<Row>, AllocError>
        ensures { IfOk result (λ rows. rows ≡ listing (minus self.now over.now)) }
    {
        let mut left = over.entries();
        let mut rows = Vec::new(alloc);
        for (row, times) in self.entries() {
            let less = count_on(&mut left, row)?;
            if less < *times {
                list_times(alloc, row, *times - less, &mut rows)?;
            }
        }
        rows.shrink_to_fit();
        Ok(Items::from_vec(rows))
    }
}
