// Expressions over the columns of a row, computed.
ghost use Rattle.std.specs.Prelude.{◌≡◌, IfOk, slice_get};
ghost use Rattle.cql_plan.specs.Expr.{arithmetic, both, expr_value};

use cql_plan::Expr;
use cql_syntax::syntax::Operation;
use cql_value::Value;
use sqlite_items::at;
use std::alloc::{AllocError, Global};

// The number that an operation gives, unless it is outside i64.
fn compute(op: Operation, left: &Value, right: &Value) -> Option<Value>
    ensures { result ≡ arithmetic op left.now right.now }
{
    if let Value::Number(m) = left {
        if let Value::Number(n) = right {
            let number = match op {
                Operation::Add => m.checked_add(*n),
                Operation::Subtract => m.checked_sub(*n),
                Operation::Multiply => m.checked_mul(*n),
            };
            return match number {
                Some(z) => Some(Value::Number(z)),
                None => None,
            };
        }
    }
    None
}

// The same, unless one of both is missing.
fn combined(op: Operation, left: Option<Value>, right: Option<Value>) -> Option<Value>
    ensures { result ≡ both (arithmetic op) left right }
{
    match (left, right) {
        (Some(left), Some(right)) => compute(op, &left, &right),
        _ => None,
    }
}

fn value_at(alloc: Global, row: &[Value], column: usize) -> Result<Option<Value>, AllocError>
    ensures { IfOk result (λ v. v ≡ slice_get row.now column) }
{
    at(row, column)
        .map(|value| value.try_clone(alloc))
        .transpose()
}

/// The value of the expression on the row: none where an operation is outside i64.
#[tactic(auto, unfolding(cql_plan::specs::Expr::expr_value))]
pub fn evaluate(alloc: Global, expr: &Expr, row: &[Value]) -> Result<Option<Value>, AllocError>
    ensures { IfOk result (λ v. v ≡ expr_value row.now expr.now) }
{
    match expr {
        Expr::Column(column) => value_at(alloc, row, *column),
        Expr::Constant(value) => Ok(Some(value.try_clone(alloc)?)),
        Expr::Binary(op, left, right) => {
            let left = evaluate(alloc, left.get(), row)?;
            let right = evaluate(alloc, right.get(), row)?;
            Ok(combined(*op, left, right))
        }
    }
}
