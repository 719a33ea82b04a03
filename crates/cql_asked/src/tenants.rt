//! The table of tenants that a line gives.
ghost use Rattle.std.specs.Prelude.{◌≡◌, Some, None, IfOk, IfErr, Err, option_and_then};
ghost use Rattle.serde_json.specs.View.{view, items_view};
ghost use Rattle.cql_lines.specs.Tree.{tree_of, all_of};
ghost use Rattle.cql_asked.specs.Table.{quotas_of, name_of, tenant_of, as_table, tenants_of, table_of, Gives};
ghost use Rattle.cql_asked.specs.Telling.{IsNoTree, Tells};

use crate::rules::{BrokenRule, rule_of_tree};
use cql_lines::values::{array_at, has_only, text_at, whole_at};
use cql_tenants::{BadTenants, Quotas, Tenant, TenantTable};
use cql_value::{Name, NameError, Text};
use serde_json::Value as Json;
use std::alloc::{AllocError, AllocFailed, Global};
use thiserror::Error;

/// The keys of a tenant, each of which has to be there.
pub(crate) const TENANT_KEYS: &[&str] = &["hold", "key", "name", "queries", "result", "streams"];

// Why a tree gives no table.
#[derive(Clone, Copy, Drop)]
enum NoTable {
    Refused,
    NoMemory,
}

impl From<AllocError> for NoTable {
    ghost use Rattle.cql_asked.specs.declared.tenants.NoTable.TheVariants.{NoMemory};

    ghost from_gives = { λ _ e. e ≡ NoMemory };

    fn from(_error: AllocError) -> NoTable {
        NoTable::NoMemory
    }
}

impl<T: Drop> From<AllocFailed<T>> for NoTable {
    ghost use Rattle.cql_asked.specs.declared.tenants.NoTable.TheVariants.{NoMemory};

    ghost from_gives = { λ _ e. e ≡ NoMemory };

    fn from(_error: AllocFailed<T>) -> NoTable {
        NoTable::NoMemory
    }
}

impl From<BadTenants> for NoTable {
    ghost use Rattle.cql_asked.specs.declared.tenants.NoTable.TheVariants.{Refused};

    ghost from_gives = { λ _ e. e ≡ Refused };

    fn from(_error: BadTenants) -> NoTable {
        NoTable::Refused
    }
}

/// Why a line gives no table of tenants.
#[derive(Clone, Copy, Debug, Error)]
pub enum TenantsFault {
    /// The line isn't a tenants line: it breaks this rule.
    #[error("the tenants line is refused: {0}")]
    Refused(BrokenRule),
    /// There was no memory.
    #[error("no memory")]
    NoMemory,
}

fn quotas_of(tree: &Json) -> Result<Quotas, NoTable>
    ensures { Gives (quotas_of (view tree.now)) result }
{
    let Some(streams) = whole_at(tree, "streams") else {
        return Err(NoTable::Refused);
    };
    let Some(queries) = whole_at(tree, "queries") else {
        return Err(NoTable::Refused);
    };
    let Some(hold) = whole_at(tree, "hold") else {
        return Err(NoTable::Refused);
    };
    let Some(result) = whole_at(tree, "result") else {
        return Err(NoTable::Refused);
    };
    Ok(Quotas {
        streams,
        queries,
        hold,
        result,
    })
}

fn name_of(alloc: Global, tree: &Json) -> Result<Name, NoTable>
    ensures { Gives (name_of (view tree.now)) result }
{
    let Some(text) = text_at(tree, "name") else {
        return Err(NoTable::Refused);
    };
    match Name::read(alloc, text) {
        Ok(name) => Ok(name),
        Err(NameError::BadName) => Err(NoTable::Refused),
        Err(NameError::NoMemory) => Err(NoTable::NoMemory),
    }
}

fn tenant_of(alloc: Global, tree: &Json) -> Result<Tenant, NoTable>
    ensures { Gives (tenant_of (view tree.now)) result }
{
    if !has_only(tree, TENANT_KEYS) {
        return Err(NoTable::Refused);
    }
    let name = name_of(alloc, tree)?;
    let Some(key) = text_at(tree, "key") else {
        return Err(NoTable::Refused);
    };
    let key = Text::new(alloc, key)?;
    let quotas = quotas_of(tree)?;
    Ok(Tenant { name, key, quotas })
}

fn all_tenants(alloc: Global, items: &[Json]) -> Result<Vec<Tenant>, NoTable>
    ensures ok { IfOk result (λ tenants. all_of tenant_of (items_view items.now) ≡ Some tenants.items) }
    ensures refused { result ≡ Err NoTable.Refused → all_of tenant_of (items_view items.now) ≡ None }
{
    let mut tenants = Vec::new(alloc);
    for item in items {
        tenants.push(tenant_of(alloc, item)?)?;
    }
    Ok(tenants)
}

// The table of a line's tree.
fn table_in(alloc: Global, tree: &Json) -> Result<TenantTable, NoTable>
    ensures { Gives (option_and_then as_table (tenants_of (view tree.now))) result }
{
    if !has_only(tree, &["tenants"]) {
        return Err(NoTable::Refused);
    }
    let Some(items) = array_at(tree, "tenants") else {
        return Err(NoTable::Refused);
    };
    let tenants = all_tenants(alloc, items)?;
    Ok(TenantTable::new(tenants)?)
}

fn tree_of(alloc: Global, line: &[u8]) -> Result<Json, TenantsFault>
    ensures ok { IfOk result (λ tree. tree_of line.now ≡ Some (view tree)) }
    ensures err { IfErr result (λ fault. IsNoTree line.now fault) }
{
    match Json::from_slice(alloc, line) {
        Ok(tree) => Ok(tree),
        Err(error) if error.is_memory() => Err(TenantsFault::NoMemory),
        Err(error) => Err(TenantsFault::Refused(BrokenRule::Json {
            line: error.line(),
            column: error.column(),
        })),
    }
}

/// The table of a tenants line, without its line feed: `Refused` exactly where the line isn't an
/// object with the one key `tenants`, a list of 1 to 256 objects with exactly the keys `hold`
/// (rows, 1 to 65,536), `key` (a text of 1 to 64 bytes), `name` (a name, no two equal), `queries`
/// (0 to 64), `result` (rows, 1 to 65,536) and `streams` (0 to 64). It comes with the first rule
/// that the line breaks. `NoMemory` may be told of any line.
#[tactic(auto, unfolding(crate::specs::Table::table_of))]
pub fn read_tenants(alloc: Global, line: &[u8]) -> Result<TenantTable, TenantsFault>
    ensures { Tells line.now (table_of line.now) result }
{
    let tree = tree_of(alloc, line)?;
    match table_in(alloc, &tree) {
        Ok(table) => Ok(table),
        Err(NoTable::Refused) => Err(TenantsFault::Refused(rule_of_tree(&tree).unwrap())),
        Err(NoTable::NoMemory) => Err(TenantsFault::NoMemory),
    }
}
