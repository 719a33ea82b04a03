//! A line read into its tree, in one pass over its tokens.
ghost use Rattle.std.specs.Prelude.{◌≡◌, ◌==◌, ◌<◌, length, slice_index, [], Some, None, IfSome, IfOk, OnOk, option_map, IsTrue, true, false, MatchOption};
ghost use Rattle.json.specs.Json.{value, items, members};
ghost use Rattle.serde_json.specs.Data.{no_members, unsigned};
ghost use Rattle.serde_json.specs.Read.{number_of, number_from, float_of, of_json, of_items, of_members, converted, read as read_text};
ghost use Rattle.cql_lines.specs.TreeReading.{IsRefusal};
ghost use Rattle.cql_lines.specs.Tree.{tree_of};
ghost use Rattle.cql_lines.specs.View.{num_view, view, items_view, members_view};

use crate::tree::{Number, Tree};
use fast_float::{Numeral, parse_u64};
use json::{Invalid, Reader, Scratch, Token};
use std::alloc::{AllocError, AllocFailed, Global};

// How deep lists and objects nest at most, as in serde_json's tree.
const MAX_DEPTH: usize = 127;

// Why there is no tree.
#[derive(Clone, Copy, Drop, PartialEq, Eq)]
enum TreeError {
    Refused,
    NoMemory,
}

impl From<Invalid> for TreeError {
    ghost use Rattle.cql_lines.specs.declared.reading.TreeError.TheVariants.{Refused};

    ghost from_gives = { λ _ e. e ≡ Refused };

    fn from(_invalid: Invalid) -> TreeError {
        TreeError::Refused
    }
}

impl From<AllocError> for TreeError {
    ghost use Rattle.cql_lines.specs.declared.reading.TreeError.TheVariants.{NoMemory};

    ghost from_gives = { λ _ e. e ≡ NoMemory };

    fn from(_error: AllocError) -> TreeError {
        TreeError::NoMemory
    }
}

impl<T: Drop> From<AllocFailed<T>> for TreeError {
    ghost use Rattle.cql_lines.specs.declared.reading.TreeError.TheVariants.{NoMemory};

    ghost from_gives = { λ _ e. e ≡ NoMemory };

    fn from(_error: AllocFailed<T>) -> TreeError {
        TreeError::NoMemory
    }
}

fn has_minus(bytes: &[u8]) -> bool
    ensures value { result ≡ (slice_index bytes.now 0 == 45) }
    ensures len { IsTrue result → 0 < length bytes.now }
{
    !bytes.is_empty() && bytes[0] == b'-'
}

fn has_plus(bytes: &[u8]) -> bool
    ensures { result ≡ (slice_index bytes.now 0 == 43) }
{
    !bytes.is_empty() && bytes[0] == b'+'
}

// The number that digits alone write, where 64 bits hold it.
fn digits_of(bytes: &[u8]) -> Option<u64>
    ensures { IfSome result (λ n. number_of bytes.now ≡ Some (unsigned n)) }
{
    if has_minus(bytes) || has_plus(bytes) {
        return None;
    }
    match parse_u64(bytes) {
        Ok(n) => Some(n),
        Err(_) => None,
    }
}

fn nearest(negative: bool, numeral: &Numeral<'_>) -> Option<Number>
    ensures { option_map num_view result ≡ float_of negative numeral.now }
{
    let x = numeral.to_float::<f64>(negative);
    if x.is_finite() {
        Some(Number::Float(x))
    } else {
        None
    }
}

fn unsigned(numeral: &Numeral<'_>) -> Option<Number>
    ensures { option_map num_view result ≡ number_from false numeral.now }
{
    match numeral.to_u64() {
        Some(n) => Some(Number::Unsigned(n)),
        None => nearest(false, numeral),
    }
}

fn negative(numeral: &Numeral<'_>) -> Option<Number>
    ensures { option_map num_view result ≡ number_from true numeral.now }
{
    if let Some(n) = numeral.to_i64(true) {
        if n < 0 {
            return Some(Number::Negative(n));
        }
    }
    nearest(true, numeral)
}

fn scan_number(text: &str) -> Option<Number>
    ensures { option_map num_view result ≡ number_of text.now }
{
    let bytes = text.as_bytes();
    if has_minus(bytes) {
        negative(&Numeral::scan(&bytes[1..]))
    } else {
        unsigned(&Numeral::scan(bytes))
    }
}

/// The number that a token writes, where it is in range. Most are digits alone.
pub fn read_number(text: &str) -> Option<Number>
    ensures { option_map num_view result ≡ number_of text.now }
{
    match digits_of(text.as_bytes()) {
        Some(n) => Some(Number::Unsigned(n)),
        None => scan_number(text),
    }
}

#[cycle(read)]
#[inline(always)]
fn read<'a>(alloc: Global, reader: &mut Reader<'a>, depth: usize) -> Result<Tree<'a>, TreeError>
    ensures ok { IfOk result (λ v. converted of_json (value depth reader.old) ≡ Some (view v, reader.new)) }
    ensures shorter { OnOk result (length reader.new < length reader.old) }
    ensures err { IsRefusal result → converted of_json (value depth reader.old) ≡ None }
{
    let Some(token) = reader.next() else {
        return Err(TreeError::Refused);
    };
    match token {
        Token::String(text) => Ok(Tree::Text(text)),
        Token::Number(text) => match read_number(text) {
            Some(number) => Ok(Tree::Number(number)),
            None => Err(TreeError::Refused),
        },
        Token::Bool(b) => Ok(Tree::Bool(b)),
        Token::Null => Ok(Tree::Null),
        Token::EndObject | Token::EndArray | Token::Key(_) | Token::Bad => Err(TreeError::Refused),
        Token::BeginArray => {
            if depth == 0 {
                return Err(TreeError::Refused);
            }
            Ok(Tree::List(read_items(alloc, reader, depth - 1)?))
        }
        Token::BeginObject => {
            if depth == 0 {
                return Err(TreeError::Refused);
            }
            Ok(Tree::Object(read_members(alloc, reader, depth - 1)?))
        }
    }
}

#[cycle(read)]
#[inline(never)]
fn read_items<'a>(
    alloc: Global,
    reader: &mut Reader<'a>,
    depth: usize,
) -> Result<Vec<Tree<'a>>, TreeError>
    ensures ok { IfOk result
        (λ v. converted of_items (items (value depth) (length reader.old) reader.old)
        ≡ Some (items_view v.items, reader.new)) }
    ensures shorter { OnOk result (length reader.new < length reader.old) }
    ensures err { IsRefusal result
        → converted of_items (items (value depth) (length reader.old) reader.old) ≡ None }
{
    let mut found = Vec::new(alloc);
    'items: while !reader.take_end_array() {
        let item = read(alloc, reader, depth)?;
        found.push(item)?;
    }
    Ok(found)
}

// An object with no members yet. The line's own object gets room for those of most lines, so that
// it grows once at most; one inside it gets none, so that many small ones take little.
fn no_members_at<'a>(alloc: Global, depth: usize) -> Result<Vec<(&'a str, Tree<'a>)>, AllocError>
    ensures { IfOk result (λ v. v.items ≡ []) }
{
    if depth == MAX_DEPTH - 1 {
        return Vec::with_capacity(alloc, 6);
    }
    Ok(Vec::new(alloc))
}

#[cycle(read)]
#[inline(never)]
fn read_members<'a>(
    alloc: Global,
    reader: &mut Reader<'a>,
    depth: usize,
) -> Result<Vec<(&'a str, Tree<'a>)>, TreeError>
    ensures ok { IfOk result
        (λ v. converted (λ ms. of_members ms no_members)
        (members (value depth) (length reader.old) reader.old)
        ≡ Some (members_view v.items, reader.new)) }
    ensures shorter { OnOk result (length reader.new < length reader.old) }
    ensures err { IsRefusal result
        → converted (λ ms. of_members ms no_members)
        (members (value depth) (length reader.old) reader.old) ≡ None }
{
    let mut found = no_members_at(alloc, depth)?;
    'members: while let Some(key) = reader.next_key()? {
        let member = read(alloc, reader, depth)?;
        found.push((key, member))?;
    }
    Ok(found)
}

// The tree of a whole text.
fn read_all<'a>(
    alloc: Global,
    text: &'a str,
    scratch: &'a mut Scratch,
) -> Result<Tree<'a>, TreeError>
    ensures ok { IfOk result (λ v. read_text text.now ≡ Some (view v)) }
    ensures err { IsRefusal result → read_text text.now ≡ None }
{
    let mut reader = Reader::new(text, scratch)?;
    let tree = read(alloc, &mut reader, MAX_DEPTH)?;
    if reader.next().is_some() {
        return Err(TreeError::Refused);
    }
    Ok(tree)
}

/// The text of which a line's tree is read, or None where the line isn't UTF-8.
pub fn line_text(line: &[u8]) -> Option<&str>
    ensures { MatchOption result (tree_of line.now ≡ None)
        (λ text. tree_of line.now ≡ read_text text.now) }
{
    match simdutf8::compat::from_utf8(line) {
        Ok(text) => Some(text),
        Err(_) => None,
    }
}

/// The tree of a text, or None where it is no JSON. What is unescaped is kept in the scratch.
pub fn read_tree<'a>(
    alloc: Global,
    text: &'a str,
    scratch: &'a mut Scratch,
) -> Result<Option<Tree<'a>>, AllocError>
    ensures { IfOk result (λ tree. option_map view tree ≡ read_text text.now) }
{
    match read_all(alloc, text, scratch) {
        Ok(tree) => Ok(Some(tree)),
        Err(TreeError::Refused) => Ok(None),
        Err(TreeError::NoMemory) => Err(AllocError),
    }
}
