// Reads queries.
ghost use Rattle.cql_syntax.specs.Operators as operators;
ghost use Rattle.cql_syntax.specs.Cursor.{Reads, token_by};
ghost use Rattle.cql_text.specs.Readers as spec;

use crate::block::{block, rest, selected};
use crate::item::selection;
use cql_syntax::cursor::{Cursor, Stop};
use cql_syntax::syntax::{Query, Second, SetOperator, StreamOperator};
use cql_syntax::token::Fixed;
use std::alloc::Global;

#[tactic(auto, unfolding(cql_syntax::specs::Cursor::token_by))]
fn set_operator(cursor: &mut Cursor<'_>) -> Result<SetOperator, Stop>
    ensures { Reads (token_by operators.set_operator_of cursor.old) result cursor.new }
{
    match cursor.set_operator() {
        Some(operator) => {
            cursor.skip();
            Ok(operator)
        }
        None => Err(Stop::Refused),
    }
}

#[tactic(auto, unfolding(cql_syntax::specs::Cursor::token_by))]
fn stream_operator(cursor: &mut Cursor<'_>) -> Result<StreamOperator, Stop>
    ensures { Reads (token_by operators.stream_operator_of cursor.old) result cursor.new }
{
    match cursor.stream_operator() {
        Some(operator) => {
            cursor.skip();
            Ok(operator)
        }
        None => Err(Stop::Refused),
    }
}

#[tactic(auto, unfolding(crate::specs::Readers::second))]
fn second(alloc: Global, cursor: &mut Cursor<'_>) -> Result<Second, Stop>
    ensures { Reads (spec.second cursor.old) result cursor.new }
{
    let operator = set_operator(cursor)?;
    cursor.expect(Fixed::All)?;
    let block = block(alloc, cursor)?;
    Ok(Second { operator, block })
}

#[tactic(auto, using(crate::proofs::Steps::known_next), unfolding(crate::specs::Reading::optional, crate::specs::Readers::second_if_any))]
fn second_if_any(alloc: Global, cursor: &mut Cursor<'_>) -> Result<Option<Second>, Stop>
    ensures { Reads (spec.second_if_any cursor.old) result cursor.new }
{
    if cursor.set_operator().is_some() {
        Ok(Some(second(alloc, cursor)?))
    } else {
        Ok(None)
    }
}

// The form with the stream operator round all.
#[tactic(auto, unfolding(crate::specs::Readers::outer))]
fn outer(alloc: Global, cursor: &mut Cursor<'_>) -> Result<Query, Stop>
    ensures { Reads (spec.outer cursor.old) result cursor.new }
{
    let output = stream_operator(cursor)?;
    cursor.expect(Fixed::Open)?;
    let first = block(alloc, cursor)?;
    let second = second_if_any(alloc, cursor)?;
    cursor.expect(Fixed::Close)?;
    Ok(Query {
        output: Some(output),
        first,
        second,
    })
}

// What follows SELECT in the form with the stream operator round the items.
#[tactic(auto, unfolding(crate::specs::Readers::inner))]
fn inner(alloc: Global, cursor: &mut Cursor<'_>) -> Result<Query, Stop>
    ensures { Reads (spec.inner cursor.old) result cursor.new }
{
    let output = stream_operator(cursor)?;
    cursor.expect(Fixed::Open)?;
    let distinct = cursor.eat(Fixed::Distinct);
    let selection = selection(alloc, cursor)?;
    cursor.expect(Fixed::Close)?;
    let first = rest(alloc, cursor, distinct, selection)?;
    Ok(Query {
        output: Some(output),
        first,
        second: None,
    })
}

// What follows SELECT in the form with no stream operator.
#[tactic(auto, unfolding(crate::specs::Readers::whole))]
fn whole(alloc: Global, cursor: &mut Cursor<'_>) -> Result<Query, Stop>
    ensures { Reads (spec.whole cursor.old) result cursor.new }
{
    let first = selected(alloc, cursor)?;
    let second = second_if_any(alloc, cursor)?;
    Ok(Query {
        output: None,
        first,
        second,
    })
}

#[tactic(auto, using(crate::proofs::Steps::known_next), unfolding(crate::specs::Reading::choice, crate::specs::Readers::body))]
fn body(alloc: Global, cursor: &mut Cursor<'_>) -> Result<Query, Stop>
    ensures { Reads (spec.body cursor.old) result cursor.new }
{
    if cursor.stream_operator().is_some() {
        return outer(alloc, cursor);
    }
    cursor.expect(Fixed::Select)?;
    if cursor.stream_operator().is_some() {
        inner(alloc, cursor)
    } else {
        whole(alloc, cursor)
    }
}

/// A query, and the `;` behind it.
#[tactic(auto, unfolding(crate::specs::Readers::query))]
pub(crate) fn query(alloc: Global, cursor: &mut Cursor<'_>) -> Result<Query, Stop>
    ensures { Reads (spec.query cursor.old) result cursor.new }
{
    let query = body(alloc, cursor)?;
    cursor.eat(Fixed::Semicolon);
    Ok(query)
}
