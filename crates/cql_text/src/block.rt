// Reads blocks.
ghost use Rattle.std.specs.Prelude.{◌≡◌};
ghost use Rattle.cql_syntax.specs.Cursor.{Reads};
ghost use Rattle.cql_text.specs.Readers as spec;

use crate::condition::condition;
use crate::constant::{column, name};
use crate::item::{MOST_LEVELS, selection};
use crate::window::in_squares;
use cql_syntax::cursor::{Cursor, Stop};
use cql_syntax::syntax::{Condition, Input, QualifiedName, SelectBlock, Selection, WrittenWindow};
use cql_syntax::token::Fixed;
use cql_value::{Items, Name};
use std::alloc::Global;

#[tactic(auto, unfolding(crate::specs::Reading::optional))]
fn window_if_any(alloc: Global, cursor: &mut Cursor<'_>) -> Result<Option<WrittenWindow>, Stop>
    ensures { Reads (spec.window_if_any cursor.old) result cursor.new }
{
    if cursor.sees(Fixed::OpenSquare) {
        Ok(Some(in_squares(alloc, cursor)?))
    } else {
        Ok(None)
    }
}

#[tactic(auto, using(crate::proofs::Steps::alias_next))]
fn sees_alias(cursor: &Cursor<'_>) -> bool
    ensures { result ≡ spec.sees_alias cursor.now }
{
    cursor.sees(Fixed::As) || cursor.sees_word()
}

#[tactic(auto, unfolding(crate::specs::Reading::optional, crate::specs::Readers::alias, crate::specs::Readers::sees_alias))]
fn alias(alloc: Global, cursor: &mut Cursor<'_>) -> Result<Option<Name>, Stop>
    ensures { Reads (spec.alias cursor.old) result cursor.new }
{
    if sees_alias(cursor) {
        cursor.eat(Fixed::As);
        Ok(Some(name(alloc, cursor)?))
    } else {
        Ok(None)
    }
}

#[tactic(auto, unfolding(crate::specs::Readers::input))]
fn input(alloc: Global, cursor: &mut Cursor<'_>) -> Result<Input, Stop>
    ensures { Reads (spec.input cursor.old) result cursor.new }
{
    let stream = column(alloc, cursor)?;
    let window = window_if_any(alloc, cursor)?;
    let alias = alias(alloc, cursor)?;
    Ok(Input {
        stream,
        window: window.unwrap_or(WrittenWindow::Unbounded),
        alias,
    })
}

#[tactic(auto, unfolding(crate::specs::Readers::next_input))]
fn next_input(alloc: Global, cursor: &mut Cursor<'_>) -> Result<Input, Stop>
    ensures { Reads (spec.next_input cursor.old) result cursor.new }
{
    cursor.expect(Fixed::Comma)?;
    input(alloc, cursor)
}

#[tactic(auto, unfolding(crate::specs::Reading::optional))]
fn next_if_any(alloc: Global, cursor: &mut Cursor<'_>) -> Result<Option<Input>, Stop>
    ensures { Reads (spec.next_if_any cursor.old) result cursor.new }
{
    if cursor.sees(Fixed::Comma) {
        Ok(Some(next_input(alloc, cursor)?))
    } else {
        Ok(None)
    }
}

// One or two further inputs, each behind a comma.
#[tactic(auto, unfolding(crate::specs::Readers::further_inputs))]
fn further_inputs(alloc: Global, cursor: &mut Cursor<'_>) -> Result<Items<Input>, Stop>
    ensures { Reads (spec.further_inputs cursor.old) result cursor.new }
{
    let mut inputs = Items::new(alloc);
    inputs.push(next_input(alloc, cursor)?)?;
    if let Some(third) = next_if_any(alloc, cursor)? {
        inputs.push(third)?;
    }
    Ok(inputs)
}

#[tactic(auto, unfolding(crate::specs::Reading::optional))]
fn further_if_any(alloc: Global, cursor: &mut Cursor<'_>) -> Result<Option<Items<Input>>, Stop>
    ensures { Reads (spec.further_if_any cursor.old) result cursor.new }
{
    if cursor.sees(Fixed::Comma) {
        Ok(Some(further_inputs(alloc, cursor)?))
    } else {
        Ok(None)
    }
}

// 1 to 3 inputs.
#[tactic(auto, unfolding(crate::specs::Readers::inputs))]
fn inputs(alloc: Global, cursor: &mut Cursor<'_>) -> Result<Items<Input>, Stop>
    ensures { Reads (spec.inputs cursor.old) result cursor.new }
{
    let mut inputs = Items::new(alloc);
    inputs.push(input(alloc, cursor)?)?;
    if let Some(further) = further_if_any(alloc, cursor)? {
        inputs.append(further)?;
    }
    Ok(inputs)
}

#[tactic(auto, unfolding(crate::specs::Reading::optional, crate::specs::Readers::where_clause))]
fn where_clause(alloc: Global, cursor: &mut Cursor<'_>) -> Result<Option<Condition>, Stop>
    ensures { Reads (spec.where_clause cursor.old) result cursor.new }
{
    if cursor.sees(Fixed::Where) {
        cursor.expect(Fixed::Where)?;
        Ok(Some(condition(alloc, cursor, MOST_LEVELS)?))
    } else {
        Ok(None)
    }
}

#[tactic(auto, using(crate::proofs::Steps::chain_turn, crate::proofs::Steps::head_signs), unfolding(crate::specs::Readers::columns, crate::specs::Reading::list_of, crate::specs::Reading::chain_of, crate::specs::Reading::chain))]
fn columns(alloc: Global, cursor: &mut Cursor<'_>) -> Result<Items<QualifiedName>, Stop>
    ensures { Reads (spec.columns cursor.old) result cursor.new }
{
    let mut columns = Items::new(alloc);
    columns.push(column(alloc, cursor)?)?;
    for _turn in 0..cursor.left() {
        if !cursor.sees(Fixed::Comma) {
            return Ok(columns);
        }
        cursor.skip();
        columns.push(column(alloc, cursor)?)?;
    }
    Ok(columns)
}

#[tactic(auto, unfolding(crate::specs::Reading::optional, crate::specs::Readers::group_clause))]
fn group_clause(
    alloc: Global,
    cursor: &mut Cursor<'_>,
) -> Result<Option<Items<QualifiedName>>, Stop>
    ensures { Reads (spec.group_clause cursor.old) result cursor.new }
{
    if cursor.sees(Fixed::Group) {
        cursor.expect(Fixed::Group)?;
        cursor.expect(Fixed::By)?;
        Ok(Some(columns(alloc, cursor)?))
    } else {
        Ok(None)
    }
}

/// What follows the items of a block that shows this.
#[tactic(auto, unfolding(crate::specs::Readers::rest))]
pub(crate) fn rest(
    alloc: Global,
    cursor: &mut Cursor<'_>,
    distinct: bool,
    selection: Selection,
) -> Result<SelectBlock, Stop>
    ensures { Reads (spec.rest distinct selection cursor.old) result cursor.new }
{
    cursor.expect(Fixed::From)?;
    let inputs = inputs(alloc, cursor)?;
    let condition = where_clause(alloc, cursor)?;
    let groups = group_clause(alloc, cursor)?;
    Ok(SelectBlock {
        distinct,
        selection,
        inputs,
        condition,
        groups: groups.unwrap_or(Items::new(alloc)),
    })
}

/// What follows SELECT in a block.
#[tactic(auto, unfolding(crate::specs::Readers::selected))]
pub(crate) fn selected(alloc: Global, cursor: &mut Cursor<'_>) -> Result<SelectBlock, Stop>
    ensures { Reads (spec.selected cursor.old) result cursor.new }
{
    let distinct = cursor.eat(Fixed::Distinct);
    let selection = selection(alloc, cursor)?;
    rest(alloc, cursor, distinct, selection)
}

/// A block.
#[tactic(auto, unfolding(crate::specs::Readers::block))]
pub(crate) fn block(alloc: Global, cursor: &mut Cursor<'_>) -> Result<SelectBlock, Stop>
    ensures { Reads (spec.block cursor.old) result cursor.new }
{
    cursor.expect(Fixed::Select)?;
    selected(alloc, cursor)
}
