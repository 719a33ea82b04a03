// Reads items.
ghost use Rattle.std.specs.Prelude.{◌≡◌};
ghost use Rattle.cql_syntax.specs.Operators as operators;
ghost use Rattle.cql_syntax.specs.Cursor.{Reads, token_by};
ghost use Rattle.cql_text.specs.Readers as spec;

use crate::constant::{column, name_after};
use crate::expression::sum;
use cql_syntax::cursor::{Cursor, Stop};
use cql_syntax::syntax::{Aggregate, Function, Item, Selection, Shown};
use cql_syntax::token::Fixed;
use cql_value::Items;
use std::alloc::Global;

/// How many levels brackets and NOT may open.
pub(crate) const MOST_LEVELS: usize = 16;

#[tactic(auto, unfolding(crate::specs::Readers::count))]
fn count(cursor: &mut Cursor<'_>) -> Result<Aggregate, Stop>
    ensures { Reads (spec.count cursor.old) result cursor.new }
{
    cursor.expect(Fixed::Count)?;
    cursor.expect(Fixed::Open)?;
    cursor.expect(Fixed::Star)?;
    cursor.expect(Fixed::Close)?;
    Ok(Aggregate::Count)
}

#[tactic(auto, unfolding(cql_syntax::specs::Cursor::token_by))]
fn function(cursor: &mut Cursor<'_>) -> Result<Function, Stop>
    ensures { Reads (token_by operators.function_of cursor.old) result cursor.new }
{
    match cursor.function() {
        Some(function) => {
            cursor.skip();
            Ok(function)
        }
        None => Err(Stop::Refused),
    }
}

// A function of a column.
#[tactic(auto, unfolding(crate::specs::Readers::over))]
fn over(alloc: Global, cursor: &mut Cursor<'_>) -> Result<Aggregate, Stop>
    ensures { Reads (spec.over cursor.old) result cursor.new }
{
    let function = function(cursor)?;
    cursor.expect(Fixed::Open)?;
    let column = column(alloc, cursor)?;
    cursor.expect(Fixed::Close)?;
    Ok(Aggregate::Over(function, column))
}

#[tactic(auto, unfolding(crate::specs::Reading::choice, crate::specs::Readers::aggregate))]
fn aggregate(alloc: Global, cursor: &mut Cursor<'_>) -> Result<Aggregate, Stop>
    ensures { Reads (spec.aggregate cursor.old) result cursor.new }
{
    if cursor.sees(Fixed::Count) {
        count(cursor)
    } else {
        over(alloc, cursor)
    }
}

#[tactic(auto, using(crate::proofs::Steps::aggregate_next))]
fn sees_aggregate(cursor: &Cursor<'_>) -> bool
    ensures { result ≡ spec.sees_aggregate cursor.now }
{
    cursor.sees(Fixed::Count) || cursor.function().is_some()
}

// An aggregate or an expression.
#[tactic(auto, unfolding(crate::specs::Reading::choice, crate::specs::Readers::shown, crate::specs::Readers::sees_aggregate))]
fn shown(alloc: Global, cursor: &mut Cursor<'_>) -> Result<Shown, Stop>
    ensures { Reads (spec.shown cursor.old) result cursor.new }
{
    if sees_aggregate(cursor) {
        Ok(Shown::Aggregate(aggregate(alloc, cursor)?))
    } else {
        Ok(Shown::Expression(sum(alloc, cursor, MOST_LEVELS)?))
    }
}

#[tactic(auto, unfolding(crate::specs::Readers::item))]
fn item(alloc: Global, cursor: &mut Cursor<'_>) -> Result<Item, Stop>
    ensures { Reads (spec.item cursor.old) result cursor.new }
{
    let shown = shown(alloc, cursor)?;
    let alias = name_after(alloc, cursor, Fixed::As)?;
    Ok(Item { shown, alias })
}

#[tactic(auto, using(crate::proofs::Steps::chain_turn, crate::proofs::Steps::head_signs), unfolding(crate::specs::Readers::items, crate::specs::Reading::list_of, crate::specs::Reading::chain_of, crate::specs::Reading::chain))]
fn items(alloc: Global, cursor: &mut Cursor<'_>) -> Result<Items<Item>, Stop>
    ensures { Reads (spec.items cursor.old) result cursor.new }
{
    let mut items = Items::new(alloc);
    items.push(item(alloc, cursor)?)?;
    for _turn in 0..cursor.left() {
        if !cursor.sees(Fixed::Comma) {
            return Ok(items);
        }
        cursor.skip();
        items.push(item(alloc, cursor)?)?;
    }
    Ok(items)
}

/// `*`, or items with commas between.
#[tactic(auto, unfolding(crate::specs::Reading::choice, crate::specs::Readers::selection))]
pub(crate) fn selection(alloc: Global, cursor: &mut Cursor<'_>) -> Result<Selection, Stop>
    ensures { Reads (spec.selection cursor.old) result cursor.new }
{
    if cursor.sees(Fixed::Star) {
        cursor.expect(Fixed::Star)?;
        Ok(Selection::All)
    } else {
        Ok(Selection::List(items(alloc, cursor)?))
    }
}
