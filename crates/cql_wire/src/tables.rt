//! The table of tenants that an input gives, in its first line or in several.
ghost use Rattle.std.specs.Prelude.{◌≡◌, ◌≤◌, ◌-◌, ◌++◌, ◌∷◌, Err, None, false, true, IfOk, IfErr, MatchResult, length};
ghost use Rattle.std.specs.Io.KnownBytes.{Consumes, IsAtEnd};
ghost use Rattle.cql_lines.specs.Watched.{inner_of, has_failed};
ghost use Rattle.cql_lines.specs.Tree.{tree_of};
ghost use Rattle.cql_asked.specs.Rules.{IsJson};
ghost use Rattle.cql_wire.specs.declared.programs.TableFault.TheVariants as table;
ghost use Rattle.cql_wire.specs.Table.{text_of, EndsRest, TellsBehind, EndsBehind, GivesTable, GivesNone};
ghost use Rattle.cql_lines.specs.declared.lines.TheConstants.{MAX_LINE};

use crate::programs::{TableFault, table_line};
use cql_asked::{BrokenRule, TenantsFault, read_tenants};
use cql_core::TenantTable;
use cql_lines::Watched;
use std::alloc::{AllocError, Global};
use std::io::Read;

/// The most bytes of a table of tenants in several lines, their line feeds included.
pub const MAX_TABLE: usize = 1_048_576;

// How many bytes are read at once.
const PIECE: usize = 4096;

// What is left of the input, where that is no more than so many bytes.
fn read_rest<R: Read>(
    alloc: Global,
    reader: &mut Watched<R>,
    most: usize,
) -> Result<Vec<u8>, TableFault>
    requires { most ≤ MAX_TABLE }
    ensures ok { IfOk result (λ rest. Consumes (R.remaining (inner_of reader.old)) (R.remaining (inner_of reader.new)) rest.items
        × IsAtEnd (R.remaining (inner_of reader.new))) }
    ensures fault { IfErr result (λ fault. EndsRest (R.remaining (inner_of reader.old)) (R.remaining (inner_of reader.new)) most fault) }
    ensures cause { result ≡ Err table.Read → has_failed reader.new ≡ true }
{
    let mut rest: Vec<u8> = Vec::new(alloc);
    let mut piece = [0; PIECE];
    while rest.len() <= most {
        let Ok(count) = reader.read(&mut piece) else {
            return Err(TableFault::Read);
        };
        if count == 0 {
            return Ok(rest);
        }
        if rest.extend_from_slice(&piece[..count]).is_err() {
            return Err(TableFault::NoMemory);
        }
    }
    Err(TableFault::Refused(BrokenRule::Length(MAX_TABLE)))
}

// The text of a first line and of what is behind it.
fn joined(line: Vec<u8>, rest: &[u8]) -> Result<Vec<u8>, AllocError>
    ensures { IfOk result (λ text. text.items ≡ text_of line.items rest.now) }
{
    let mut text = line;
    text.push(b'\n')?;
    text.extend_from_slice(rest)?;
    Ok(text)
}

// The tenants of the whole input, of which the first line isn't JSON by itself and breaks the rule.
fn whole_table<R: Read>(
    alloc: Global,
    reader: &mut Watched<R>,
    line: Vec<u8>,
    rule: BrokenRule,
) -> Result<TenantTable, TableFault>
    requires short { length line.items ≤ MAX_LINE }
    requires rule { IsJson rule }
    ensures told { MatchResult result
        (λ tenants. TellsBehind (R.remaining (inner_of reader.old)) (R.remaining (inner_of reader.new)) line.items tenants)
        (λ fault. EndsBehind (R.remaining (inner_of reader.old)) (R.remaining (inner_of reader.new)) line.items fault) }
    ensures cause { result ≡ Err table.Read → has_failed reader.new ≡ true }
{
    let rest = read_rest(alloc, reader, MAX_TABLE - 1 - line.len())?;
    if rest.is_empty() {
        return Err(TableFault::Refused(rule));
    }
    let Ok(text) = joined(line, rest.as_slice()) else {
        return Err(TableFault::NoMemory);
    };
    match read_tenants(alloc, text.as_slice()) {
        Ok(table) => Ok(table),
        Err(TenantsFault::Refused(rule)) => Err(TableFault::Refused(rule)),
        Err(TenantsFault::NoMemory) => Err(TableFault::NoMemory),
    }
}

/// The tenants of an input. Where its first line is JSON by itself, or has more than 65,536 bytes,
/// they are those of this line, as `first_table` has them, and nothing behind its line feed is read;
/// else those of the whole input, which then is one JSON object of at most 1,048,576 bytes.
pub fn given_table<R: Read>(
    alloc: Global,
    reader: &mut Watched<R>,
) -> Result<TenantTable, TableFault>
    ensures told { MatchResult result
        (λ tenants. GivesTable (R.remaining (inner_of reader.old)) (R.remaining (inner_of reader.new)) tenants)
        (λ fault. GivesNone (R.remaining (inner_of reader.old)) (R.remaining (inner_of reader.new)) fault) }
    ensures cause { result ≡ Err table.Read → has_failed reader.new ≡ true }
{
    let line = table_line(alloc, reader)?;
    match read_tenants(alloc, line.as_slice()) {
        Ok(table) => Ok(table),
        Err(TenantsFault::Refused(rule)) => if let BrokenRule::Json { .. } = rule {
            whole_table(alloc, reader, line, rule)
        } else {
            Err(TableFault::Refused(rule))
        },
        Err(TenantsFault::NoMemory) => Err(TableFault::NoMemory),
    }
}
