// Reads names and constants.
ghost use Rattle.std.specs.Prelude.{◌≡◌, ◌≤◌, ◌^◌};
ghost use Rattle.cql_text.specs.Meaning as meaning;
ghost use Rattle.cql_syntax.specs.Cursor.{Reads, token_by};
ghost use Rattle.cql_text.specs.Readers as spec;

use cql_syntax::cursor::{Cursor, Stop};
use cql_syntax::syntax::{Constant, QualifiedName};
use cql_syntax::token::{Fixed, Token};
use cql_value::{Name, NameError, Text};
use std::alloc::Global;

#[tactic(auto, unfolding(cql_syntax::specs::Cursor::token_by, crate::specs::Readers::name))]
pub(crate) fn name(alloc: Global, cursor: &mut Cursor<'_>) -> Result<Name, Stop>
    ensures { Reads (spec.name cursor.old) result cursor.new }
{
    let Some(Token::Word(word)) = cursor.peek() else {
        return Err(Stop::Refused);
    };
    match Name::read(alloc, word.as_str()) {
        Ok(name) => {
            cursor.skip();
            Ok(name)
        }
        Err(NameError::BadName) => Err(Stop::Refused),
        Err(NameError::NoMemory) => Err(Stop::Memory),
    }
}

// A further name behind the word or sign, where that comes next.
#[tactic(auto, unfolding(crate::specs::Reading::optional, crate::specs::Readers::name_after))]
pub(crate) fn name_after(
    alloc: Global,
    cursor: &mut Cursor<'_>,
    fixed: Fixed,
) -> Result<Option<Name>, Stop>
    ensures { Reads (spec.name_after fixed cursor.old) result cursor.new }
{
    if cursor.sees(fixed) {
        cursor.expect(fixed)?;
        Ok(Some(name(alloc, cursor)?))
    } else {
        Ok(None)
    }
}

// A name, or two with a dot between.
#[tactic(auto, unfolding(crate::specs::Readers::column))]
pub(crate) fn column(alloc: Global, cursor: &mut Cursor<'_>) -> Result<QualifiedName, Stop>
    ensures { Reads (spec.column cursor.old) result cursor.new }
{
    let first = name(alloc, cursor)?;
    let column = match name_after(alloc, cursor, Fixed::Dot)? {
        None => QualifiedName {
            qualifier: None,
            name: first,
        },
        Some(second) => QualifiedName {
            qualifier: Some(first),
            name: second,
        },
    };
    Ok(column)
}

fn minus(n: u64) -> i64
    requires { n ≤ 2 ^ 63 }
    ensures { result ≡ meaning.minus n }
{
    if n == 0 { 0 } else { -((n - 1) as i64) - 1 }
}

const LARGEST: u64 = 0x7fff_ffff_ffff_ffff;

// The number behind a constant's own `-`.
#[tactic(auto, unfolding(cql_syntax::specs::Cursor::token_by))]
fn negative(cursor: &mut Cursor<'_>) -> Result<Constant, Stop>
    ensures { Reads (token_by meaning.negative_of cursor.old) result cursor.new }
{
    match cursor.peek() {
        Some(Token::Number(n)) if *n <= LARGEST + 1 => {
            let n = minus(*n);
            cursor.skip();
            Ok(Constant::Number(n))
        }
        _ => Err(Stop::Refused),
    }
}

#[tactic(auto, unfolding(cql_syntax::specs::Cursor::token_by))]
fn unsigned(alloc: Global, cursor: &mut Cursor<'_>) -> Result<Constant, Stop>
    ensures { Reads (token_by meaning.constant_of cursor.old) result cursor.new }
{
    match cursor.peek() {
        Some(Token::Number(n)) if *n <= LARGEST => {
            let n = *n as i64;
            cursor.skip();
            Ok(Constant::Number(n))
        }
        Some(Token::Text(text)) => {
            let text = text.try_clone(alloc)?;
            cursor.skip();
            Ok(Constant::Text(text))
        }
        _ => Err(Stop::Refused),
    }
}

#[tactic(auto, unfolding(crate::specs::Reading::choice, crate::specs::Readers::constant))]
pub(crate) fn constant(alloc: Global, cursor: &mut Cursor<'_>) -> Result<Constant, Stop>
    ensures { Reads (spec.constant cursor.old) result cursor.new }
{
    if cursor.sees(Fixed::Minus) {
        cursor.expect(Fixed::Minus)?;
        negative(cursor)
    } else {
        unsigned(alloc, cursor)
    }
}
