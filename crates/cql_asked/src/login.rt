//! The login of a session.
ghost use Rattle.std.specs.Prelude.{◌≡◌, ◌==◌, Some, IfOk, slice_get};
ghost use Rattle.std.specs.Bool.{Decides};
ghost use Rattle.std.specs.Str.{bytes_eq};
ghost use Rattle.serde_json.specs.View.{view};
ghost use Rattle.cql_asked.specs.Login.{is_key_at, login_in, login_of, named_in, named_of, LogsIn};

use crate::fault::LineFault;
use cql_lines::values::{has_only, read_value, text_at};
use cql_tenants::{TenantId, TenantTable};
use serde_json::Value as Json;
use std::alloc::{AllocError, Global};

/// The keys of a login line, each of which has to be there.
const LOGIN_KEYS: &[&str] = &["key", "tenant"];

fn byte_at(key: &[u8], offset: usize) -> Option<u8>
    ensures { result ≡ slice_get key.now offset }
{
    key.get(offset).copied()
}

// How the bits of two bytes differ: 0 exactly where they are the same. From no byte each differs.
fn difference(byte: u8, other: Option<u8>) -> u8
    ensures { Decides (result == 0) (other ≡ Some byte) }
{
    match other {
        Some(other) => byte ^ other,
        None => 1,
    }
}

// Whether the keys are the same. It goes over the whole given key whatever differs, and doesn't
// branch on its bytes, so that the time doesn't tell how much of the key is right.
fn is_equal_key(given: &[u8], kept: &[u8]) -> bool
    ensures { result ≡ bytes_eq given.now kept.now }
{
    let mut differences = 0;
    for (offset, byte) in given.iter().enumerate() {
        differences |= difference(*byte, byte_at(kept, offset));
    }
    differences == 0 && given.len() == kept.len()
}

fn is_key_at(table: &TenantTable, id: TenantId, key: &str) -> bool
    ensures { result ≡ is_key_at table.now id key.now }
{
    match table.tenants().get(id.index()) {
        Some(tenant) => is_equal_key(key.as_bytes(), tenant.key.as_str().as_bytes()),
        None => false,
    }
}

fn login_in(table: &TenantTable, tree: &Json) -> Option<TenantId>
    ensures { result ≡ login_in table.now (view tree.now) }
{
    if !has_only(tree, LOGIN_KEYS) {
        return None;
    }
    let name = text_at(tree, "tenant")?;
    let key = text_at(tree, "key")?;
    let id = table.find(name)?;
    is_key_at(table, id, key).then_some(id)
}

/// The tenant of the table that a line, without its line feed, logs in. A login is an object with
/// exactly the keys `key` and `tenant`, both texts: the tenant's name, and its key, whole.
/// `WrongKey` (13) exactly where the line is no login of a tenant of the table. `NoMemory` (70)
/// may be told of any line.
///
/// The time that a wrong key takes doesn't depend on how much of it is right. A wrong tenant takes
/// less time than a wrong key: names aren't secret.
#[tactic(auto, unfolding(crate::specs::Login::login_of))]
pub fn read_login(alloc: Global, line: &[u8], table: &TenantTable) -> Result<TenantId, LineFault>
    ensures { LogsIn (login_of table.now line.now) result }
{
    let Some(tree) = read_value(alloc, line)? else {
        return Err(LineFault::WrongKey);
    };
    login_in(table, &tree).ok_or(LineFault::WrongKey)
}

fn named_in(table: &TenantTable, tree: &Json) -> Option<TenantId>
    ensures { result ≡ named_in table.now (view tree.now) }
{
    table.find(text_at(tree, "tenant")?)
}

/// The tenant of the table that a line, without its line feed, names, whatever else it says. That is
/// no login.
pub fn named_tenant(
    alloc: Global,
    line: &[u8],
    table: &TenantTable,
) -> Result<Option<TenantId>, AllocError>
    ensures { IfOk result (λ named. named ≡ named_of table.now line.now) }
{
    match read_value(alloc, line)? {
        Some(tree) => Ok(named_in(table, &tree)),
        None => Ok(None),
    }
}
