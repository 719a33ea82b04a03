// Reads expressions.
ghost use Rattle.std.specs.Prelude.{◌≡◌, length, IfOk};
ghost use Rattle.cql_syntax.specs.Operators.{product_sign, sum_sign};
ghost use Rattle.cql_syntax.specs.Cursor.{Reads};
ghost use Rattle.cql_text.specs.Reading.{chain};
ghost use Rattle.cql_text.specs.Readers as spec;

use crate::constant::{column, constant};
use cql_syntax::cursor::{Cursor, Stop};
use cql_syntax::syntax::{Expression, Operation};
use cql_syntax::token::Fixed;
use cql_value::Boxed;
use std::alloc::{AllocError, Global};

fn binary(
    alloc: Global,
    operation: Operation,
    left: Expression,
    right: Expression,
) -> Result<Expression, AllocError>
    ensures { IfOk result (λ x. x ≡ Expression.Binary operation left right) }
{
    Ok(Expression::Binary(
        operation,
        Boxed::new(alloc, left)?,
        Boxed::new(alloc, right)?,
    ))
}

// A column or a constant.
#[tactic(auto, unfolding(crate::specs::Reading::choice, crate::specs::Readers::atom))]
fn atom(alloc: Global, cursor: &mut Cursor<'_>) -> Result<Expression, Stop>
    ensures { Reads (spec.atom cursor.old) result cursor.new }
{
    if cursor.sees_word() {
        Ok(Expression::Column(column(alloc, cursor)?))
    } else {
        Ok(Expression::Constant(constant(alloc, cursor)?))
    }
}

#[cycle(expression)]
#[tactic(auto, unfolding(crate::specs::Readers::bracket))]
fn bracket(alloc: Global, cursor: &mut Cursor<'_>, level: usize) -> Result<Expression, Stop>
    ensures { Reads (spec.bracket (spec.sum level) cursor.old) result cursor.new }
{
    cursor.expect(Fixed::Open)?;
    let inner = sum(alloc, cursor, level)?;
    cursor.expect(Fixed::Close)?;
    Ok(Expression::Bracket(Boxed::new(alloc, inner)?))
}

#[cycle(expression)]
#[tactic(auto, using(crate::proofs::Steps::factor_at))]
fn factor(alloc: Global, cursor: &mut Cursor<'_>, level: usize) -> Result<Expression, Stop>
    ensures { Reads (spec.factor level cursor.old) result cursor.new }
{
    if level > 0 && cursor.sees(Fixed::Open) {
        bracket(alloc, cursor, level - 1)
    } else {
        atom(alloc, cursor)
    }
}

// The further factors behind `left`, each after a sign.
#[cycle(expression)]
#[tactic(auto, using(crate::proofs::Steps::chain_turn), unfolding(crate::specs::Reading::chain))]
fn more_factors(
    alloc: Global,
    cursor: &mut Cursor<'_>,
    level: usize,
    mut left: Expression,
) -> Result<Expression, Stop>
    ensures { Reads (chain (spec.factor level) product_sign Expression.Binary (length cursor.old) left cursor.old) result cursor.new }
{
    for _turn in 0..cursor.left() {
        let Some(sign) = cursor.product_sign() else {
            return Ok(left);
        };
        cursor.skip();
        let right = factor(alloc, cursor, level)?;
        left = binary(alloc, sign, left, right)?;
    }
    Ok(left)
}

#[cycle(expression)]
#[tactic(auto, unfolding(crate::specs::Readers::term_of, crate::specs::Reading::chain_of))]
fn term(alloc: Global, cursor: &mut Cursor<'_>, level: usize) -> Result<Expression, Stop>
    ensures { Reads (spec.term_of (spec.factor level) cursor.old) result cursor.new }
{
    let first = factor(alloc, cursor, level)?;
    more_factors(alloc, cursor, level, first)
}

// The further terms behind `left`, each after a sign.
#[cycle(expression)]
#[tactic(auto, using(crate::proofs::Steps::chain_turn), unfolding(crate::specs::Reading::chain))]
fn more_terms(
    alloc: Global,
    cursor: &mut Cursor<'_>,
    level: usize,
    mut left: Expression,
) -> Result<Expression, Stop>
    ensures { Reads (chain (spec.term_of (spec.factor level)) sum_sign Expression.Binary (length cursor.old) left cursor.old) result cursor.new }
{
    for _turn in 0..cursor.left() {
        let Some(sign) = cursor.sum_sign() else {
            return Ok(left);
        };
        cursor.skip();
        let right = term(alloc, cursor, level)?;
        left = binary(alloc, sign, left, right)?;
    }
    Ok(left)
}

/// An expression in which brackets open at most so many levels.
#[cycle(expression)]
#[tactic(auto, unfolding(crate::specs::Readers::sum, crate::specs::Readers::sum_of, crate::specs::Reading::chain_of))]
pub(crate) fn sum(alloc: Global, cursor: &mut Cursor<'_>, level: usize) -> Result<Expression, Stop>
    ensures { Reads (spec.sum level cursor.old) result cursor.new }
{
    let first = term(alloc, cursor, level)?;
    more_terms(alloc, cursor, level, first)
}
