// Conditions over the columns of a row.
ghost use Rattle.std.specs.Prelude.{◌≡◌};
ghost use Rattle.std.specs.Option.{option_copied};
ghost use Rattle.cql_plan.specs.Condition.{compares, operand_value, holds};

use cql_syntax::syntax::Comparison;
use cql_value::{Boxed, Value};
use sqlite_items::at;
use std::cmp::Ordering;

/// A side of a comparison: a column of the row, counted from 0, or a constant.
pub enum Operand {
    Column(usize),
    Constant(Value),
}

/// A condition over the columns of one row, counted from 0.
#[derive(Drop)]
pub enum Condition {
    Always,
    Compare(Operand, Comparison, Operand),
    Not(Boxed<Condition>),
    And(Boxed<Condition>, Boxed<Condition>),
    Or(Boxed<Condition>, Boxed<Condition>),
}

/// Whether two values in this order compare so.
pub fn compares(comparison: Comparison, order: Ordering) -> bool
    ensures { result ≡ compares comparison order }
{
    match comparison {
        Comparison::Equal => order.is_eq(),
        Comparison::Unequal => !order.is_eq(),
        Comparison::Less => order.is_lt(),
        Comparison::LessOrEqual => !order.is_gt(),
        Comparison::Greater => order.is_gt(),
        Comparison::GreaterOrEqual => !order.is_lt(),
    }
}

impl Drop for Operand {
    fn drop(self) {
        match self {
            Operand::Column(_at) => {}
            Operand::Constant(_value) => {}
        }
    }
}

impl Operand {
    // Its value on the row, where it has the column.
    fn value<'a>(&'a self, row: &'a [Value]) -> Option<&'a Value>
        ensures { option_copied result ≡ operand_value row.now self.now }
    {
        match self {
            Operand::Column(column) => at(row, *column),
            Operand::Constant(value) => Some(value),
        }
    }
}

/// Whether the row meets the condition.
#[tactic(auto, unfolding(crate::specs::Condition::holds))]
pub fn meets(condition: &Condition, row: &[Value]) -> bool
    ensures { result ≡ holds row.now condition.now }
{
    match condition {
        Condition::Always => true,
        Condition::Compare(left, comparison, right) => match left.value(row) {
            Some(left) => match right.value(row) {
                Some(right) => compares(*comparison, left.cmp(right)),
                None => false,
            },
            None => false,
        },
        Condition::Not(inner) => !meets(inner.get(), row),
        Condition::And(left, right) => meets(left.get(), row) && meets(right.get(), row),
        Condition::Or(left, right) => meets(left.get(), row) || meets(right.get(), row),
    }
}
