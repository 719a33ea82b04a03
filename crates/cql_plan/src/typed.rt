// Expressions and conditions with their types.
ghost use Rattle.std.specs.Prelude.{◌≡◌, IfOk};
ghost use Rattle.cql_plan.specs.Outcome.{Answers};
ghost use Rattle.cql_plan.specs.Typing as spec;

use crate::condition::{Condition, Operand};
use crate::error::{PlanError, PlanFault};
use crate::expr::Expr;
use crate::row::{Field, column_of};
use cql_syntax::syntax::{self, Comparison, Constant, Expression, Operation, QualifiedName};
use cql_value::{Boxed, ColumnType, Value};
use std::alloc::{AllocError, Global};

/// An expression and what it gives.
#[derive(Drop)]
pub(crate) struct TypedExpr {
    pub(crate) expr: Expr,
    pub(crate) kind: ColumnType,
}

/// A side of a comparison and what it holds.
#[derive(Drop)]
pub(crate) struct TypedOperand {
    pub(crate) operand: Operand,
    pub(crate) kind: ColumnType,
}

/// Whether two types are one.
pub(crate) fn same_kind(left: ColumnType, right: ColumnType) -> bool
    ensures { result ≡ spec.same_kind left right }
{
    left == right
}

fn value_of(alloc: Global, written: &Constant) -> Result<Value, AllocError>
    ensures { IfOk result (λ v. v ≡ spec.value_of written.now) }
{
    match written {
        Constant::Number(number) => Ok(Value::Number(*number)),
        Constant::Text(text) => Ok(Value::Text(text.try_clone(alloc)?)),
    }
}

fn kind_of(written: &Constant) -> ColumnType
    ensures { result ≡ spec.kind_of written.now }
{
    match written {
        Constant::Number(_) => ColumnType::Number,
        Constant::Text(_) => ColumnType::Text,
    }
}

// An operation takes two numbers and gives one.
fn operated(
    alloc: Global,
    operation: Operation,
    left: TypedExpr,
    right: TypedExpr,
) -> Result<TypedExpr, PlanError>
    ensures { Answers (spec.operated operation left right) result }
{
    if !same_kind(left.kind, ColumnType::Number) || !same_kind(right.kind, ColumnType::Number) {
        return Err(PlanError::Refused(PlanFault::TypeMismatch));
    }
    let left = Boxed::new(alloc, left.expr)?;
    let right = Boxed::new(alloc, right.expr)?;
    Ok(TypedExpr {
        expr: Expr::Binary(operation, left, right),
        kind: ColumnType::Number,
    })
}

fn constant_of(alloc: Global, written: &Constant) -> Result<TypedExpr, AllocError>
    ensures { IfOk result (λ typed. typed ≡ spec.constant_of written.now) }
{
    Ok(TypedExpr {
        expr: Expr::Constant(value_of(alloc, written)?),
        kind: kind_of(written),
    })
}

fn typed_column(fields: &[Field], written: &QualifiedName) -> Result<TypedExpr, PlanFault>
    ensures { result ≡ spec.typed_column fields.now written.now }
{
    let found = column_of(fields, written)?;
    Ok(TypedExpr {
        expr: Expr::Column(found.column),
        kind: found.kind,
    })
}

/// An expression over the columns: its operands from the left, then the operation round them.
#[tactic(auto, unfolding(crate::specs::Typing::expression_of))]
pub(crate) fn expression_of(
    alloc: Global,
    fields: &[Field],
    written: &Expression,
) -> Result<TypedExpr, PlanError>
    ensures { Answers (spec.expression_of fields.now written.now) result }
{
    match written {
        Expression::Constant(constant) => Ok(constant_of(alloc, constant)?),
        Expression::Column(column) => Ok(typed_column(fields, column)?),
        Expression::Bracket(inner) => expression_of(alloc, fields, inner.get()),
        Expression::Binary(operation, left, right) => {
            let left = expression_of(alloc, fields, left.get())?;
            let right = expression_of(alloc, fields, right.get())?;
            operated(alloc, *operation, left, right)
        }
    }
}

#[tactic(auto, unfolding(crate::specs::Typing::operand_of))]
fn operand_of(
    alloc: Global,
    fields: &[Field],
    written: &syntax::Operand,
) -> Result<TypedOperand, PlanError>
    ensures { Answers (spec.operand_of fields.now written.now) result }
{
    match written {
        syntax::Operand::Constant(constant) => Ok(TypedOperand {
            operand: Operand::Constant(value_of(alloc, constant)?),
            kind: kind_of(constant),
        }),
        syntax::Operand::Column(column) => {
            let found = column_of(fields, column)?;
            Ok(TypedOperand {
                operand: Operand::Column(found.column),
                kind: found.kind,
            })
        }
    }
}

// Both sides of a comparison have one type.
#[tactic(auto, unfolding(crate::specs::Typing::comparison_of))]
fn comparison_of(
    alloc: Global,
    fields: &[Field],
    left: &syntax::Operand,
    how: Comparison,
    right: &syntax::Operand,
) -> Result<Condition, PlanError>
    ensures { Answers (spec.comparison_of fields.now left.now how right.now) result }
{
    let left = operand_of(alloc, fields, left)?;
    let right = operand_of(alloc, fields, right)?;
    if !same_kind(left.kind, right.kind) {
        return Err(PlanError::Refused(PlanFault::TypeMismatch));
    }
    Ok(Condition::Compare(left.operand, how, right.operand))
}

// A condition on the columns, its parts from the left.
#[tactic(auto, unfolding(crate::specs::Typing::condition_of))]
fn condition_of(
    alloc: Global,
    fields: &[Field],
    written: &syntax::Condition,
) -> Result<Condition, PlanError>
    ensures { Answers (spec.condition_of fields.now written.now) result }
{
    match written {
        syntax::Condition::Compare(left, how, right) => {
            comparison_of(alloc, fields, left, *how, right)
        }
        syntax::Condition::Not(inner) => {
            let inner = condition_of(alloc, fields, inner.get())?;
            Ok(Condition::Not(Boxed::new(alloc, inner)?))
        }
        syntax::Condition::Bracket(inner) => condition_of(alloc, fields, inner.get()),
        syntax::Condition::And(left, right) => {
            let left = Boxed::new(alloc, condition_of(alloc, fields, left.get())?)?;
            let right = Boxed::new(alloc, condition_of(alloc, fields, right.get())?)?;
            Ok(Condition::And(left, right))
        }
        syntax::Condition::Or(left, right) => {
            let left = Boxed::new(alloc, condition_of(alloc, fields, left.get())?)?;
            let right = Boxed::new(alloc, condition_of(alloc, fields, right.get())?)?;
            Ok(Condition::Or(left, right))
        }
    }
}

/// What WHERE says; without it every row meets it.
#[tactic(auto, unfolding(crate::specs::Typing::where_of))]
pub(crate) fn where_of(
    alloc: Global,
    fields: &[Field],
    written: &Option<syntax::Condition>,
) -> Result<Condition, PlanError>
    ensures { Answers (spec.where_of fields.now written.now) result }
{
    match written {
        None => Ok(Condition::Always),
        Some(written) => condition_of(alloc, fields, written),
    }
}
