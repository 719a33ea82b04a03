// Expressions of numbers, computed without a copy of a value.
ghost use Rattle.std.specs.Prelude.{◌≡◌, Some, IfSome};
ghost use Rattle.cql_value.specs.declared.value.Value.TheVariants.{Number};
ghost use Rattle.cql_plan.specs.Expr.{arithmetic, expr_value};

use cql_plan::Expr;
use cql_syntax::syntax::Operation;
use cql_value::Value;
use sqlite_items::at;

// The number that the value is; a text is none.
fn number_in(value: &Value) -> Option<i64>
    ensures { IfSome result (λ n. value.now ≡ Number n) }
{
    match value {
        Value::Number(number) => Some(*number),
        Value::Text(_) => None,
    }
}

// The number that an operation gives, unless it is outside i64.
fn operated(op: Operation, left: i64, right: i64) -> Option<i64>
    ensures { IfSome result (λ z. arithmetic op (Number left) (Number right) ≡ Some (Number z)) }
{
    match op {
        Operation::Add => left.checked_add(right),
        Operation::Subtract => left.checked_sub(right),
        Operation::Multiply => left.checked_mul(right),
    }
}

/// The number that the expression gives on the row; none where it gives a text, or where an
/// operation is outside i64. Takes no memory.
#[tactic(auto, unfolding(cql_plan::specs::Expr::expr_value))]
pub fn number_of(expr: &Expr, row: &[Value]) -> Option<i64>
    ensures { IfSome result (λ n. expr_value row.now expr.now ≡ Some (Number n)) }
{
    match expr {
        Expr::Column(column) => number_in(at(row, *column)?),
        Expr::Constant(value) => number_in(value),
        Expr::Binary(op, left, right) => {
            let left = number_of(left.get(), row)?;
            let right = number_of(right.get(), row)?;
            operated(*op, left, right)
        }
    }
}
