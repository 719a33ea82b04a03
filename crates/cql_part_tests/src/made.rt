// What a test ends with, and rows of numbers.
ghost use Rattle.std.specs.Prelude.{◌≡◌, false, IfOk, length};
ghost use Rattle.cql_value.specs.Schema.{HasTypes};
ghost use Rattle.cql_part_tests.specs.Numbers.{columns_of};

use cql_bag::Change;
use cql_value::{Row, Value};
use std::alloc::{AllocError, Global};
use std::fmt::Debug;
use std::test::Fail;

/// A test goes on where all was made and this holds.
pub(crate) fn holds<E: Debug + Drop>(found: Result<bool, E>) -> Result<(), Fail> {
    if found? {
        Ok(())
    } else {
        Err(Fail::new("it doesn't hold"))
    }
}

/// A row of one number.
pub(crate) fn number_row(alloc: Global, number: i64) -> Result<Row, AllocError>
    ensures types { IfOk result (HasTypes (columns_of false)) }
    ensures one { IfOk result (λ row. length row ≡ 1) }
{
    Row::new(alloc, vec![in alloc; Value::Number(number)]?)
}

/// Whether it is a change of the row of these numbers.
pub(crate) fn is_row(change: &Change, plus: bool, numbers: &[i64]) -> bool {
    let values = change.row.values();
    if change.plus != plus || values.len() != numbers.len() {
        return false;
    }
    for index in 0..numbers.len() {
        match &values[index] {
            Value::Number(number) if *number == numbers[index] => {}
            _ => return false,
        }
    }
    true
}
