// Reads a query text.
ghost use Rattle.std.specs.Prelude.{◌≡◌, ◌<◌, ◌≤◌, length, IfOk, IfSome, ℕ};
ghost use Rattle.cql_syntax.specs.declared.syntax.Query as syntax;
ghost use Rattle.std.specs.Prelude.{string_bytes};
ghost use Rattle.cql_syntax.specs.Spelling.{canonical};
ghost use Rattle.cql_syntax.specs.Tokens.{tokens_of};
ghost use Rattle.cql_text.specs.Read as spec;
ghost use Rattle.cql_text.specs.Read.{Answers, Reads};

use crate::query::query;
use cql_syntax::cursor::{Cursor, Stop};
use cql_syntax::syntax::Query;
use cql_syntax::token::{Lexeme, Token};
use cql_syntax::{Scanned, lexed, text_of};
use cql_value::Items;
use std::alloc::{AllocError, Global};
use std::marker::Model;
use thiserror::Error;

/// Why a text gives no query.
#[derive(Clone, Copy, Debug, PartialEq, Eq, Drop, Error)]
pub enum ReadError {
    /// It isn't in the grammar, first at this byte (50).
    #[error("bad query at byte {at}")]
    BadQuery { at: usize },
    /// There was no memory (70).
    #[error("no memory")]
    NoMemory,
}

impl From<AllocError> for ReadError {
    ghost use Rattle.std.specs.Prelude.{◌≡◌};
    ghost use Rattle.cql_text.specs.declared.reader.ReadError.TheVariants.{NoMemory};

    ghost from_gives = { λ _ e. e ≡ NoMemory };

    fn from(_error: AllocError) -> ReadError {
        ReadError::NoMemory
    }
}

// The byte at which the last `left` tokens begin.
fn offset_at(scanned: &Scanned, len: usize, left: usize) -> usize
    ensures { result ≡ spec.offset_at scanned.now len left }
{
    let lexemes = scanned.lexemes.as_slice();
    match lexemes.get(lexemes.len().saturating_sub(left)) {
        Some(lexeme) => lexeme.at,
        None => match scanned.fault {
            Some(at) => at,
            None => len,
        },
    }
}

// The byte of the number before the last `left` tokens, where a number stands there.
#[tactic(auto, unfolding(crate::specs::Read::number_before))]
fn number_before(lexemes: &[Lexeme], left: usize) -> Option<usize>
    ensures value { result ≡ spec.number_before lexemes.now left }
    ensures within { IfSome result (λ _. (0 < left) × (left < length lexemes.now)) }
{
    if left == 0 || left >= lexemes.len() {
        return None;
    }
    match &lexemes[lexemes.len() - left - 1] {
        Lexeme {
            at,
            token: Token::Number(_),
        } => Some(*at),
        _ => None,
    }
}

// Whether some query begins with the tokens.
#[tactic(auto, unfolding(crate::specs::Read::goes_on))]
fn goes_on(alloc: Global, lexemes: &[Lexeme]) -> Result<bool, AllocError>
    ensures { IfOk result (λ on. on ≡ spec.goes_on (tokens_of lexemes.now)) }
{
    let mut cursor = Cursor::new(lexemes);
    match query(alloc, &mut cursor) {
        Err(Stop::Memory) => Err(AllocError),
        _ => Ok(cursor.left() == 0),
    }
}

// The byte at which the text is refused whose reader left so many tokens. Where the number before
// them is out of its range with its unit, which shows in that 1 would do in its place, it is the
// number's.
#[tactic(auto, unfolding(crate::specs::Read::refusal, crate::specs::Read::with_one))]
fn refusal(alloc: Global, scanned: Scanned, len: usize, left: usize) -> Result<usize, AllocError>
    ensures { IfOk result (λ at. at ≡ spec.refusal scanned len left) }
{
    let offset = offset_at(&scanned, len, left);
    let mut lexemes = scanned.lexemes;
    let Some(at) = number_before(lexemes.as_slice(), left) else {
        return Ok(offset);
    };
    let next = lexemes.len() - left;
    let token = Token::Number(1);
    lexemes.set(next - 1, Lexeme { at, token });
    if goes_on(alloc, &lexemes.as_slice()[..next + 1])? {
        Ok(at)
    } else {
        Ok(offset)
    }
}

// The query that the tokens are, or how many of them its reader leaves.
#[tactic(auto, using(crate::proofs::Finish::attempts), unfolding(crate::specs::Read::attempt))]
fn attempt(alloc: Global, scanned: &Scanned) -> Result<Result<Query, usize>, AllocError>
    ensures { IfOk result (λ outcome. outcome ≡ spec.attempt scanned.now) }
{
    let mut cursor = Cursor::new(scanned.lexemes.as_slice());
    match query(alloc, &mut cursor) {
        Err(Stop::Memory) => Err(AllocError),
        Err(Stop::Refused) => Ok(Err(cursor.left())),
        Ok(query) if cursor.left() == 0 && scanned.fault.is_none() => Ok(Ok(query)),
        Ok(_) => Ok(Err(cursor.left())),
    }
}

const MOST_BYTES: usize = 4096;

// The query that the text's first tokens are. Those that begin beyond the bytes that a text may
// have are not read, so that a long text makes no deep tree; one of them is, since it may be the
// unit that puts the number before it out of its range.
#[tactic(auto, unfolding(crate::specs::Read::read_tokens))]
fn read_tokens(alloc: Global, text: &str) -> Result<Query, ReadError>
    ensures { Answers (spec.read_tokens text.now) result }
{
    let scanned = lexed(alloc, text, MOST_BYTES)?;
    match attempt(alloc, &scanned)? {
        Ok(query) => Ok(query),
        Err(left) => {
            let at = refusal(alloc, scanned, text.len(), left)?;
            Err(ReadError::BadQuery { at })
        }
    }
}

#[tactic(auto, unfolding(crate::specs::Read::read_of))]
fn read_capped(alloc: Global, text: &str) -> Result<Query, ReadError>
    ensures { Answers (spec.read_of text.now) result }
{
    let read = read_tokens(alloc, text);
    if text.len() <= MOST_BYTES {
        return read;
    }
    match read {
        Ok(_) => Err(ReadError::BadQuery { at: MOST_BYTES }),
        Err(ReadError::BadQuery { at }) => Err(ReadError::BadQuery {
            at: at.min(MOST_BYTES),
        }),
        Err(ReadError::NoMemory) => Err(ReadError::NoMemory),
    }
}

/// What a text of at most 4096 bytes says in the query language. It is made by `read` alone, and
/// contracts see the query: some tokens are that query.
#[derive(Drop)]
pub struct Syntax {
    query: Query,
}

impl Model for Syntax {
    ghost use Rattle.cql_syntax.specs.declared.syntax.Query.{Query};
    ghost use Rattle.cql_text.specs.Read.{IsSyntax};
    ghost use Rattle.cql_syntax.specs.contracts.syntax.Expression as expression;
    ghost use Rattle.cql_syntax.specs.contracts.syntax.Condition as condition;
    ghost use Rattle.std.specs.Coded.{codes};

    ghost Value = { Query };

    ghost coded = { Prim.hlevel (codes, expression.the_row.coded, condition.the_row.coded) };

    ghost view = { λ s. s.query };

    ghost invariant = { λ s. IsSyntax s.query };
}

/// What is read of a text, as a function of its bytes, is what the grammar says of it: the query
/// that it is, or the least of the offsets at which it is refused.
pub fn read_law()
    ensures { spec.ReadLaw }
{}

// The query that the text is, or the byte at which it is refused.
fn read_query(alloc: Global, text: &str) -> Result<Query, ReadError>
    ensures answers { Answers (spec.read_of text.now) result }
    ensures found { IfOk result (λ q. spec.Is text.now q) }
    ensures only { (q : syntax.Query) → spec.Is text.now q → Reads q result }
    ensures refused { (at : ℕ) → result ≡ Err (ReadError.BadQuery at) → spec.IsRefusedAt text.now at }
{
    read_capped(alloc, text)
}

/// The query that the text is, or the first byte at which it is refused (50).
pub fn read(alloc: Global, text: &str) -> Result<Syntax, ReadError>
    // One outcome for each text, unless memory runs out.
    ensures answers { Answers (spec.read_of text.now) result }
    // What is read is so.
    ensures found { IfOk result (λ s. spec.Is text.now s) }
    // What is so is read, unless memory runs out.
    ensures only { (q : syntax.Query) → spec.Is text.now q → Reads q result }
    // Where it is refused.
    ensures refused { (at : ℕ) → result ≡ Err (ReadError.BadQuery at) → spec.IsRefusedAt text.now at }
{
    match read_query(alloc, text) {
        Ok(query) => Ok(Syntax { query }),
        Err(error) => Err(error),
    }
}

impl Syntax {
    /// The query, which some tokens are.
    pub fn query(&self) -> &Query
        ensures value { result.now ≡ self.now }
        ensures valid { spec.IsSyntax self.now }
    {
        &self.query
    }

    /// The canonical spelling: reserved words in upper case, lengths in ticks, one space between
    /// tokens but where none belongs, no `;`.
    ///
    /// Read again it is this query, where it has at most 4096 bytes.
    pub fn to_text(&self, alloc: Global) -> Result<String, AllocError>
        ensures spelling { IfOk result (λ text. string_bytes text ≡ canonical self.now) }
        ensures again { IfOk result (λ text. length (string_bytes text) ≤ spec.most_bytes → spec.Is (string_bytes text) self.now) }
    {
        text_of(alloc, &self.query)
    }
}
