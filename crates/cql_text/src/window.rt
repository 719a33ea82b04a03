// Reads windows.
ghost use Rattle.std.specs.Prelude.{◌≡◌, ◌≤◌, IfSome};
ghost use Rattle.cql_text.specs.Meaning as meaning;
ghost use Rattle.cql_syntax.specs.Cursor.{Reads, token_by, at_head};
ghost use Rattle.cql_text.specs.Reading.{optional};
ghost use Rattle.cql_syntax.specs.Tokens.{knows};
ghost use Rattle.cql_text.specs.Readers as spec;

use crate::constant::name;
use cql_syntax::cursor::{Cursor, Stop};
use cql_syntax::syntax::WrittenWindow;
use cql_syntax::token::{Fixed, Token};
use cql_value::name::is_name;
use cql_value::{Items, Name};
use std::alloc::Global;

const LONGEST: u64 = 0x3fff_ffff_ffff_ffff;

// A number from the least to the longest length.
#[tactic(auto, unfolding(cql_syntax::specs::Cursor::token_by))]
fn number(cursor: &mut Cursor<'_>, least: u64) -> Result<u64, Stop>
    ensures { Reads (token_by (meaning.number_from least) cursor.old) result cursor.new }
{
    match cursor.peek() {
        Some(Token::Number(n)) if least <= *n && *n <= LONGEST => {
            let n = *n;
            cursor.skip();
            Ok(n)
        }
        _ => Err(Stop::Refused),
    }
}

// Whether the text is the word, in any case of its letters, or with an `s` behind it.
fn is_either(text: &str, one: &str, several: &str) -> bool
    ensures { result ≡ meaning.is_either text.now one.now several.now }
{
    text.eq_ignore_ascii_case(one) || text.eq_ignore_ascii_case(several)
}

// The ticks of the unit that the text names.
#[tactic(auto, unfolding(crate::specs::Meaning::unit_named))]
fn unit_named(text: &str) -> Option<u64>
    ensures value { result ≡ meaning.unit_named text.now }
    ensures small { IfSome result (λ u. u ≤ 86400) }
{
    if is_either(text, "second", "seconds") {
        Some(1)
    } else if is_either(text, "minute", "minutes") {
        Some(60)
    } else if is_either(text, "hour", "hours") {
        Some(3600)
    } else if is_either(text, "day", "days") {
        Some(86_400)
    } else {
        None
    }
}

// The ticks of the unit that comes next.
#[tactic(auto, unfolding(crate::specs::Meaning::unit_of))]
fn unit(cursor: &Cursor<'_>) -> Option<u64>
    ensures value { result ≡ at_head meaning.unit_of cursor.now }
    ensures small { IfSome result (λ u. u ≤ 86400) }
{
    match cursor.peek() {
        Some(Token::Word(word)) if is_name(word.as_str()) => unit_named(word.as_str()),
        _ => None,
    }
}

// So many of the unit that comes next, in ticks, where one comes next.
#[tactic(auto, using(crate::proofs::Steps::known_next), unfolding(crate::specs::Reading::optional, cql_syntax::specs::Cursor::token_by))]
fn unit_if_any(cursor: &mut Cursor<'_>, n: u64) -> Result<Option<u64>, Stop>
    ensures { Reads (optional (knows meaning.unit_of) (token_by (meaning.ticks_of n)) cursor.old) result cursor.new }
{
    let Some(unit) = unit(cursor) else {
        return Ok(None);
    };
    match n.checked_mul(unit) {
        Some(ticks) if ticks <= LONGEST => {
            cursor.skip();
            Ok(Some(ticks))
        }
        _ => Err(Stop::Refused),
    }
}

// A length in ticks.
#[tactic(auto, unfolding(crate::specs::Readers::length))]
fn length(cursor: &mut Cursor<'_>, least: u64) -> Result<u64, Stop>
    ensures { Reads (spec.length least cursor.old) result cursor.new }
{
    let n = number(cursor, least)?;
    let ticks = unit_if_any(cursor, n)?;
    Ok(ticks.unwrap_or(n))
}

#[tactic(auto, unfolding(crate::specs::Readers::unbounded))]
fn unbounded(cursor: &mut Cursor<'_>) -> Result<WrittenWindow, Stop>
    ensures { Reads (spec.unbounded cursor.old) result cursor.new }
{
    cursor.expect(Fixed::Unbounded)?;
    Ok(WrittenWindow::Unbounded)
}

// A slide in ticks, where one comes next.
#[tactic(auto, unfolding(crate::specs::Reading::optional, crate::specs::Readers::time_slide))]
fn time_slide(cursor: &mut Cursor<'_>) -> Result<Option<u64>, Stop>
    ensures { Reads (spec.time_slide cursor.old) result cursor.new }
{
    if cursor.sees(Fixed::Slide) {
        cursor.expect(Fixed::Slide)?;
        Ok(Some(length(cursor, 1)?))
    } else {
        Ok(None)
    }
}

#[tactic(auto, unfolding(crate::specs::Readers::bounded_range))]
fn bounded_range(cursor: &mut Cursor<'_>) -> Result<WrittenWindow, Stop>
    ensures { Reads (spec.bounded_range cursor.old) result cursor.new }
{
    let length = length(cursor, 0)?;
    let slide = time_slide(cursor)?;
    Ok(WrittenWindow::Range(length, slide.unwrap_or(1)))
}

#[tactic(auto, unfolding(crate::specs::Reading::choice, crate::specs::Readers::range))]
fn range(cursor: &mut Cursor<'_>) -> Result<WrittenWindow, Stop>
    ensures { Reads (spec.range cursor.old) result cursor.new }
{
    cursor.expect(Fixed::Range)?;
    if cursor.sees(Fixed::Unbounded) {
        unbounded(cursor)
    } else {
        bounded_range(cursor)
    }
}

// A slide in rows, where one comes next.
#[tactic(auto, unfolding(crate::specs::Reading::optional, crate::specs::Readers::row_slide))]
fn row_slide(cursor: &mut Cursor<'_>) -> Result<Option<u64>, Stop>
    ensures { Reads (spec.row_slide cursor.old) result cursor.new }
{
    if cursor.sees(Fixed::Slide) {
        cursor.expect(Fixed::Slide)?;
        Ok(Some(number(cursor, 1)?))
    } else {
        Ok(None)
    }
}

#[tactic(auto, unfolding(crate::specs::Readers::bounded_rows))]
fn bounded_rows(cursor: &mut Cursor<'_>) -> Result<WrittenWindow, Stop>
    ensures { Reads (spec.bounded_rows cursor.old) result cursor.new }
{
    let rows = number(cursor, 1)?;
    let slide = row_slide(cursor)?;
    Ok(WrittenWindow::Rows(rows, slide.unwrap_or(1)))
}

#[tactic(auto, unfolding(crate::specs::Reading::choice, crate::specs::Readers::rows))]
fn rows(cursor: &mut Cursor<'_>) -> Result<WrittenWindow, Stop>
    ensures { Reads (spec.rows cursor.old) result cursor.new }
{
    cursor.expect(Fixed::Rows)?;
    if cursor.sees(Fixed::Unbounded) {
        unbounded(cursor)
    } else {
        bounded_rows(cursor)
    }
}

#[tactic(auto, using(crate::proofs::Steps::chain_turn, crate::proofs::Steps::head_signs), unfolding(crate::specs::Readers::names, crate::specs::Reading::list_of, crate::specs::Reading::chain_of, crate::specs::Reading::chain))]
fn names(alloc: Global, cursor: &mut Cursor<'_>) -> Result<Items<Name>, Stop>
    ensures { Reads (spec.names cursor.old) result cursor.new }
{
    let mut names = Items::new(alloc);
    names.push(name(alloc, cursor)?)?;
    for _turn in 0..cursor.left() {
        if !cursor.sees(Fixed::Comma) {
            return Ok(names);
        }
        cursor.skip();
        names.push(name(alloc, cursor)?)?;
    }
    Ok(names)
}

#[tactic(auto, unfolding(crate::specs::Readers::partition))]
fn partition(alloc: Global, cursor: &mut Cursor<'_>) -> Result<WrittenWindow, Stop>
    ensures { Reads (spec.partition cursor.old) result cursor.new }
{
    cursor.expect(Fixed::Partition)?;
    cursor.expect(Fixed::By)?;
    let columns = names(alloc, cursor)?;
    cursor.expect(Fixed::Rows)?;
    let count = number(cursor, 1)?;
    Ok(WrittenWindow::Partition(columns, count))
}

#[tactic(auto, unfolding(crate::specs::Readers::now))]
fn now(cursor: &mut Cursor<'_>) -> Result<WrittenWindow, Stop>
    ensures { Reads (spec.now cursor.old) result cursor.new }
{
    cursor.expect(Fixed::Now)?;
    Ok(WrittenWindow::Range(0, 1))
}

#[tactic(auto, unfolding(crate::specs::Reading::choice, crate::specs::Readers::window))]
fn window(alloc: Global, cursor: &mut Cursor<'_>) -> Result<WrittenWindow, Stop>
    ensures { Reads (spec.window cursor.old) result cursor.new }
{
    if cursor.sees(Fixed::Now) {
        now(cursor)
    } else if cursor.sees(Fixed::Unbounded) {
        unbounded(cursor)
    } else if cursor.sees(Fixed::Range) {
        range(cursor)
    } else if cursor.sees(Fixed::Rows) {
        rows(cursor)
    } else {
        partition(alloc, cursor)
    }
}

/// A window in its square brackets.
#[tactic(auto, unfolding(crate::specs::Readers::in_squares))]
pub(crate) fn in_squares(alloc: Global, cursor: &mut Cursor<'_>) -> Result<WrittenWindow, Stop>
    ensures { Reads (spec.in_squares cursor.old) result cursor.new }
{
    cursor.expect(Fixed::OpenSquare)?;
    let window = window(alloc, cursor)?;
    cursor.expect(Fixed::CloseSquare)?;
    Ok(window)
}
