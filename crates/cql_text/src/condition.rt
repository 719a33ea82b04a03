// Reads conditions.
ghost use Rattle.std.specs.Prelude.{◌≡◌, length, IfOk};
ghost use Rattle.cql_syntax.specs.Tokens.{sign};
ghost use Rattle.cql_syntax.specs.Operators as operators;
ghost use Rattle.cql_syntax.specs.Cursor.{Reads, token_by};
ghost use Rattle.cql_text.specs.Reading.{chain};
ghost use Rattle.cql_text.specs.Readers as spec;
ghost use Rattle.cql_syntax.specs.declared.token.Fixed.TheVariants as k;

use crate::constant::{column, constant};
use cql_syntax::cursor::{Cursor, Stop};
use cql_syntax::syntax::{Comparison, Condition, Operand};
use cql_syntax::token::Fixed;
use cql_value::Boxed;
use std::alloc::{AllocError, Global};

#[tactic(auto, unfolding(crate::specs::Reading::choice, crate::specs::Readers::operand))]
fn operand(alloc: Global, cursor: &mut Cursor<'_>) -> Result<Operand, Stop>
    ensures { Reads (spec.operand cursor.old) result cursor.new }
{
    if cursor.sees_word() {
        Ok(Operand::Column(column(alloc, cursor)?))
    } else {
        Ok(Operand::Constant(constant(alloc, cursor)?))
    }
}

#[tactic(auto, unfolding(cql_syntax::specs::Cursor::token_by))]
fn comparison_sign(cursor: &mut Cursor<'_>) -> Result<Comparison, Stop>
    ensures { Reads (token_by operators.comparison_of cursor.old) result cursor.new }
{
    match cursor.comparison() {
        Some(how) => {
            cursor.skip();
            Ok(how)
        }
        None => Err(Stop::Refused),
    }
}

#[tactic(auto, unfolding(crate::specs::Readers::comparison))]
fn comparison(alloc: Global, cursor: &mut Cursor<'_>) -> Result<Condition, Stop>
    ensures { Reads (spec.comparison cursor.old) result cursor.new }
{
    let left = operand(alloc, cursor)?;
    let how = comparison_sign(cursor)?;
    let right = operand(alloc, cursor)?;
    Ok(Condition::Compare(left, how, right))
}

fn and(alloc: Global, left: Condition, right: Condition) -> Result<Condition, AllocError>
    ensures { IfOk result (λ x. x ≡ Condition.And left right) }
{
    Ok(Condition::And(Boxed::new(alloc, left)?, Boxed::new(alloc, right)?))
}

fn or(alloc: Global, left: Condition, right: Condition) -> Result<Condition, AllocError>
    ensures { IfOk result (λ x. x ≡ Condition.Or left right) }
{
    Ok(Condition::Or(Boxed::new(alloc, left)?, Boxed::new(alloc, right)?))
}

#[cycle(condition)]
#[tactic(auto, unfolding(crate::specs::Readers::negation))]
fn negation(alloc: Global, cursor: &mut Cursor<'_>, level: usize) -> Result<Condition, Stop>
    ensures { Reads (spec.negation (spec.plain level) cursor.old) result cursor.new }
{
    cursor.expect(Fixed::Not)?;
    let inner = plain(alloc, cursor, level)?;
    Ok(Condition::Not(Boxed::new(alloc, inner)?))
}

#[cycle(condition)]
#[tactic(auto, unfolding(crate::specs::Readers::grouping))]
fn grouping(alloc: Global, cursor: &mut Cursor<'_>, level: usize) -> Result<Condition, Stop>
    ensures { Reads (spec.grouping (spec.condition level) cursor.old) result cursor.new }
{
    cursor.expect(Fixed::Open)?;
    let inner = condition(alloc, cursor, level)?;
    cursor.expect(Fixed::Close)?;
    Ok(Condition::Bracket(Boxed::new(alloc, inner)?))
}

#[cycle(condition)]
#[tactic(auto, using(crate::proofs::Steps::plain_at))]
fn plain(alloc: Global, cursor: &mut Cursor<'_>, level: usize) -> Result<Condition, Stop>
    ensures { Reads (spec.plain level cursor.old) result cursor.new }
{
    if level > 0 && cursor.sees(Fixed::Not) {
        negation(alloc, cursor, level - 1)
    } else if level > 0 && cursor.sees(Fixed::Open) {
        grouping(alloc, cursor, level - 1)
    } else {
        comparison(alloc, cursor)
    }
}

// The further conditions behind `left`, each after AND.
#[cycle(condition)]
#[tactic(auto, using(crate::proofs::Steps::chain_turn, crate::proofs::Steps::head_signs), unfolding(crate::specs::Reading::chain))]
fn more_plain(
    alloc: Global,
    cursor: &mut Cursor<'_>,
    level: usize,
    mut left: Condition,
) -> Result<Condition, Stop>
    ensures { Reads (chain (spec.plain level) (sign k.And) (λ _ x y. Condition.And x y) (length cursor.old) left cursor.old) result cursor.new }
{
    for _turn in 0..cursor.left() {
        if !cursor.sees(Fixed::And) {
            return Ok(left);
        }
        cursor.skip();
        let right = plain(alloc, cursor, level)?;
        left = and(alloc, left, right)?;
    }
    Ok(left)
}

#[cycle(condition)]
#[tactic(auto, unfolding(crate::specs::Readers::both_of, crate::specs::Reading::chain_of))]
fn both(alloc: Global, cursor: &mut Cursor<'_>, level: usize) -> Result<Condition, Stop>
    ensures { Reads (spec.both_of (spec.plain level) cursor.old) result cursor.new }
{
    let first = plain(alloc, cursor, level)?;
    more_plain(alloc, cursor, level, first)
}

// The further conditions behind `left`, each after OR.
#[cycle(condition)]
#[tactic(auto, using(crate::proofs::Steps::chain_turn, crate::proofs::Steps::head_signs), unfolding(crate::specs::Reading::chain))]
fn more_both(
    alloc: Global,
    cursor: &mut Cursor<'_>,
    level: usize,
    mut left: Condition,
) -> Result<Condition, Stop>
    ensures { Reads (chain (spec.both_of (spec.plain level)) (sign k.Or) (λ _ x y. Condition.Or x y) (length cursor.old) left cursor.old) result cursor.new }
{
    for _turn in 0..cursor.left() {
        if !cursor.sees(Fixed::Or) {
            return Ok(left);
        }
        cursor.skip();
        let right = both(alloc, cursor, level)?;
        left = or(alloc, left, right)?;
    }
    Ok(left)
}

/// A condition in which NOT and brackets open at most so many levels.
#[cycle(condition)]
#[tactic(auto, unfolding(crate::specs::Readers::condition, crate::specs::Readers::either_of, crate::specs::Reading::chain_of))]
pub(crate) fn condition(
    alloc: Global,
    cursor: &mut Cursor<'_>,
    level: usize,
) -> Result<Condition, Stop>
    ensures { Reads (spec.condition level cursor.old) result cursor.new }
{
    let first = both(alloc, cursor, level)?;
    more_both(alloc, cursor, level, first)
}
